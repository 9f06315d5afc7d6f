//! A cursor over the tokens of a text. It takes a token where that is what is asked for, and else stays
//! where it is.

ghost use Rattle.std.specs.Prelude.{◌≡◌, ◌≤◌, ◌↔◌, ℕ, [], ◌∷◌, length, FitsSigned, IsTrue, OnOk, IfOk, IfSome};
ghost use Rattle.std.specs.Int.{w128};
ghost use Rattle.std.specs.Result.{IsOkUnless};
ghost use Rattle.hll_tree.specs.Prefixes.{begin_of};
ghost use Rattle.hll_tree.specs.Spells.{Marked, Worded, Opening, IsIf, IsName, IsBoundName, name_at, mark_of, precedence_of as precedence_of_lem, mark_of_comparison};
ghost use Rattle.hll_grammar.specs.Lookahead.{nothing, a_name, a_number, words_of, marks_of, signs, comparison_signs};
ghost use Rattle.hll_grammar.specs.Reading.{Reads};
ghost use Rattle.hll_grammar.specs.Signs.{operator_of_kind, operator_of as operator_of_lem, comparison_of_kind, comparison_of as comparison_of_lem};
ghost use Rattle.hll_grammar.specs.Unread.{AreWithin, Accepts, Takes, Opens, next_kind, starts};

use crate::fault::SyntaxFault;
use hll_lexer::{Mark, Reserved, Token, TokenKind, Word, name_bytes};
use hll_tree::{Cmp, Name, Op, Precedence};
use std::alloc::Global;
use std::marker::Model;

/// The tokens of a text that aren't read yet.
#[derive(Drop)]
pub struct Cursor<'a> {
    text: &'a [u8],
    rest: &'a [Token],
}

impl<'a> Model for Cursor<'a> {
    ghost use Rattle.hll_grammar.specs.Unread.{Unread, AreWithin};

    ghost Value = { Unread };

    ghost view = { λ c. record { text = c.text.now; rest = c.rest.now } };

    ghost invariant = { λ c. AreWithin c.text.now c.rest.now };
}

impl<'a> Cursor<'a> {
    pub fn new(text: &'a [u8], tokens: &'a [Token]) -> Cursor<'a>
        requires { AreWithin text.now tokens.now }
        ensures text { result.text ≡ text.now }
        ensures rest { result.rest ≡ tokens.now }
    {
        Cursor { text, rest: tokens }
    }

    /// What the next token is.
    pub fn peek(&self) -> Option<TokenKind>
        ensures { result ≡ next_kind self.now.rest }
    {
        match self.rest {
            [] => None,
            [next, ..] => Some(next.kind),
        }
    }

    /// The refusal of what stands next.
    pub fn unexpected(&self) -> SyntaxFault
        ensures { result ≡ SyntaxFault.Unexpected (begin_of self.now.text self.now.rest) }
    {
        let at = match self.rest {
            [] => self.text.len(),
            [next, ..] => next.from,
        };
        SyntaxFault::Unexpected { at }
    }

    /// Takes a token of this kind, if one stands next.
    fn take(&mut self, kind: TokenKind) -> Option<Token>
        ensures text { self.new.text ≡ self.old.text }
        ensures taken { Takes kind self.old.rest self.new.rest result }
        ensures within { IfSome result (λ t. (t.from ≤ t.to) × (t.to ≤ length self.new.text)) }
    {
        match self.rest {
            [next, rest @ ..] if is_kind(next, kind) => {
                self.rest = rest;
                Some(*next)
            }
            _ => None,
        }
    }

    /// Takes a token of this kind, which opens a level.
    fn open(&mut self, kind: TokenKind, room: u8) -> Result<Token, SyntaxFault>
        ensures text { self.new.text ≡ self.old.text }
        ensures opened { Opens kind room self.old self.new.rest result }
        ensures within { IfOk result (λ t. (t.from ≤ t.to) × (t.to ≤ length self.new.text)) }
    {
        let Some(token) = self.take(kind) else {
            return Err(self.unexpected());
        };
        if room == 0 {
            Err(SyntaxFault::Deep { at: token.from })
        } else {
            Ok(token)
        }
    }

    /// The name of a token.
    fn name_of(&self, alloc: Global, token: &Token) -> Result<Name, SyntaxFault>
        requires order { token.now.from ≤ token.now.to }
        requires within { token.now.to ≤ length self.now.text }
        ensures name { IfOk result (λ n. n ≡ name_at self.now.text token.now) }
        ensures memory { IsOkUnless result SyntaxFault.Memory }
    {
        let bytes = name_bytes(self.text, token);
        let text = Word::new(alloc, bytes).map_err(|_| SyntaxFault::Memory)?;
        let at = token.from as u64;
        Ok(Name { text, at })
    }

    /// Takes this mark, if it stands next.
    pub fn accept(&mut self, mark: Mark) -> Option<Token>
        ensures text { self.new.text ≡ self.old.text }
        ensures taken { Takes (TokenKind.Mark mark) self.old.rest self.new.rest result }
    {
        self.take(TokenKind::Mark(mark))
    }

    /// Takes this word, if it stands next.
    pub fn accept_word(&mut self, word: Reserved) -> Option<Token>
        ensures text { self.new.text ≡ self.old.text }
        ensures taken { Takes (TokenKind.Reserved word) self.old.rest self.new.rest result }
    {
        self.take(TokenKind::Reserved(word))
    }

    pub fn expect(&mut self, mark: Mark) -> Result<Token, SyntaxFault>
        ensures text { self.new.text ≡ self.old.text }
        ensures reads { (room : ℕ) → Reads (λ s. Marked mark) nothing
            self.old.text room self.old.rest self.new.rest result }
    {
        self.take(TokenKind::Mark(mark)).ok_or(self.unexpected())
    }

    pub fn expect_word(&mut self, word: Reserved) -> Result<Token, SyntaxFault>
        ensures text { self.new.text ≡ self.old.text }
        ensures reads { (room : ℕ) → Reads (λ s. Worded word) nothing
            self.old.text room self.old.rest self.new.rest result }
    {
        self.take(TokenKind::Reserved(word))
            .ok_or(self.unexpected())
    }

    /// This mark, which opens a level.
    pub fn opening(&mut self, mark: Mark, room: u8) -> Result<Token, SyntaxFault>
        ensures text { self.new.text ≡ self.old.text }
        ensures some { OnOk result (1 ≤ room) }
        ensures reads { Reads (λ s. Opening s mark) nothing
            self.old.text room self.old.rest self.new.rest result }
    {
        self.open(TokenKind::Mark(mark), room)
    }

    /// `if`, which opens a level.
    pub fn expect_if(&mut self, room: u8) -> Result<Token, SyntaxFault>
        ensures text { self.new.text ≡ self.old.text }
        ensures some { OnOk result (1 ≤ room) }
        ensures reads { Reads IsIf nothing
            self.old.text room self.old.rest self.new.rest result }
    {
        self.open(TokenKind::Reserved(Reserved::If), room)
    }

    pub fn name(&mut self, alloc: Global) -> Result<Name, SyntaxFault>
        ensures text { self.new.text ≡ self.old.text }
        ensures reads { (room : ℕ) → Reads IsName nothing
            self.old.text room self.old.rest self.new.rest result }
    {
        let Some(token) = self.take(TokenKind::Name) else {
            return Err(self.unexpected());
        };
        self.name_of(alloc, &token)
    }

    /// The name of a bind, which opens a level.
    pub fn bound_name(&mut self, alloc: Global, room: u8) -> Result<Name, SyntaxFault>
        ensures text { self.new.text ≡ self.old.text }
        ensures some { OnOk result (1 ≤ room) }
        ensures reads { Reads IsBoundName nothing
            self.old.text room self.old.rest self.new.rest result }
    {
        let token = self.open(TokenKind::Name, room)?;
        self.name_of(alloc, &token)
    }

    /// Takes a number, if one stands next, with its value.
    pub fn accept_number(&mut self) -> Option<(Token, i128)>
        ensures text { self.new.text ≡ self.old.text }
        ensures taken { Accepts (λ t x. (t.kind ≡ TokenKind.Number x.1) × (x.0 ≡ t)) a_number
            self.old self.new result }
        ensures fits { IfSome result (λ x. FitsSigned w128 x.1) }
    {
        match self.rest {
            [next, rest @ ..] => match next.kind {
                TokenKind::Number(value) => {
                    self.rest = rest;
                    Some((*next, value))
                }
                TokenKind::Name | TokenKind::Reserved(_) | TokenKind::Mark(_) => None,
            },
            [] => None,
        }
    }

    /// Takes the sign of an operator, if one that binds so stands next.
    pub fn accept_sign(&mut self, precedence: Precedence) -> Option<(Token, Op)>
        ensures text { self.new.text ≡ self.old.text }
        ensures taken { Accepts
            (λ t x. (t.kind ≡ TokenKind.Mark (mark_of x.1)) × (precedence_of_lem x.1 ≡ precedence) × (x.0 ≡ t))
            (marks_of (signs precedence)) self.old self.new result }
    {
        match self.rest {
            [next, rest @ ..] => {
                let op = operator(next.kind)?;
                if !binds(op, precedence) {
                    return None;
                }
                self.rest = rest;
                Some((*next, op))
            }
            [] => None,
        }
    }

    /// Takes the sign of a comparison, if one stands next.
    pub fn accept_comparison(&mut self) -> Option<(Token, Cmp)>
        ensures text { self.new.text ≡ self.old.text }
        ensures taken { Accepts
            (λ t x. (t.kind ≡ TokenKind.Mark (mark_of_comparison x.1)) × (x.0 ≡ t))
            (marks_of comparison_signs) self.old self.new result }
    {
        match self.rest {
            [next, rest @ ..] => {
                let comparison = comparison(next.kind)?;
                self.rest = rest;
                Some((*next, comparison))
            }
            [] => None,
        }
    }

    /// Whether a token of this kind stands next.
    fn is_next(&self, kind: TokenKind) -> bool
        ensures { IsTrue result ↔ (next_kind self.now.rest ≡ Some kind) }
    {
        self.peek() == Some(kind)
    }

    pub fn sees(&self, mark: Mark) -> bool
        ensures { result ≡ starts (marks_of (mark ∷ [])) self.now.rest }
    {
        self.is_next(TokenKind::Mark(mark))
    }

    pub fn sees_word(&self, word: Reserved) -> bool
        ensures { result ≡ starts (words_of (word ∷ [])) self.now.rest }
    {
        self.is_next(TokenKind::Reserved(word))
    }

    pub fn sees_number(&self) -> bool
        ensures { result ≡ starts a_number self.now.rest }
    {
        match self.rest {
            [] => false,
            [next, ..] => match next.kind {
                TokenKind::Number(_) => true,
                TokenKind::Name | TokenKind::Reserved(_) | TokenKind::Mark(_) => false,
            },
        }
    }

    pub fn sees_name(&self) -> bool
        ensures { result ≡ starts a_name self.now.rest }
    {
        self.is_next(TokenKind::Name)
    }
}

fn is_kind(token: &Token, kind: TokenKind) -> bool
    ensures { IsTrue result ↔ (token.now.kind ≡ kind) }
{
    token.kind == kind
}

/// The operator that a token of this kind is.
fn operator(kind: TokenKind) -> Option<Op>
    ensures { result ≡ operator_of_kind kind }
{
    match kind {
        TokenKind::Name | TokenKind::Number(_) | TokenKind::Reserved(_) => None,
        TokenKind::Mark(mark) => operator_of(mark),
    }
}

fn operator_of(mark: Mark) -> Option<Op>
    ensures { result ≡ operator_of_lem mark }
{
    match mark {
        Mark::Same => Some(Op::Same),
        Mark::Differ => Some(Op::Differ),
        Mark::Implies => Some(Op::Implies),
        Mark::Or => Some(Op::Or),
        Mark::And => Some(Op::And),
        Mark::Plus => Some(Op::Plus),
        Mark::Minus => Some(Op::Less),
        Mark::Times => Some(Op::Times),
        Mark::Over => Some(Op::Over),
        Mark::Rest => Some(Op::Rest),
        _ => None,
    }
}

fn precedence_of(op: Op) -> Precedence
    ensures { result ≡ precedence_of_lem op }
{
    match op {
        Op::Same | Op::Differ => Precedence::Equivalence,
        Op::Implies => Precedence::Implication,
        Op::Or => Precedence::Disjunction,
        Op::And => Precedence::Conjunction,
        Op::Plus | Op::Less => Precedence::Sum,
        Op::Times | Op::Over | Op::Rest => Precedence::Product,
    }
}

/// Whether the operator binds so.
fn binds(op: Op, precedence: Precedence) -> bool
    ensures { IsTrue result ↔ (precedence_of_lem op ≡ precedence) }
{
    precedence_of(op) == precedence
}

/// The comparison that a token of this kind is.
fn comparison(kind: TokenKind) -> Option<Cmp>
    ensures { result ≡ comparison_of_kind kind }
{
    match kind {
        TokenKind::Name | TokenKind::Number(_) | TokenKind::Reserved(_) => None,
        TokenKind::Mark(mark) => comparison_of(mark),
    }
}

fn comparison_of(mark: Mark) -> Option<Cmp>
    ensures { result ≡ comparison_of_lem mark }
{
    match mark {
        Mark::Equal => Some(Cmp::Eq),
        Mark::Unequal => Some(Cmp::Ne),
        Mark::Less => Some(Cmp::Lt),
        Mark::LessEqual => Some(Cmp::Le),
        Mark::Greater => Some(Cmp::Gt),
        Mark::GreaterEqual => Some(Cmp::Ge),
        _ => None,
    }
}
