use hll_lexer::Word;
use intervals::Interval;
use sqlite_items::{Boxed, Items};

/// A text: its sections in order.
#[derive(Drop)]
pub struct HllModel {
    pub sections: Items<Section>,
}

/// A section, by its opening words, with its items in order.
#[derive(Drop)]
pub enum Section {
    Constants(Items<ConstItem>),
    Types(Items<TypeItem>),
    Inputs(Items<Decl>),
    Declarations(Items<Decl>),
    Definitions(Items<Def>),
    Constraints(Items<Expr>),
    Obligations(Items<Expr>),
}

/// A name as it is read, without its quotes, with the byte offset where it begins.
#[derive(Drop)]
pub struct Name {
    pub text: Word,
    pub at: u64,
}

/// A constant: a Boolean or an integer.
#[derive(Drop)]
pub struct ConstItem {
    pub boolean: bool,
    pub name: Name,
    pub value: Expr,
}

/// A type, as it is written.
#[derive(Drop)]
pub enum TypeText {
    Bool,
    /// `int [lowest, greatest]`
    Bounds(Expr, Expr),
    /// `int signed`, with its number of digits
    Signed(Expr),
    /// `int unsigned`, with its number of digits
    Unsigned(Expr),
    Named(Name),
}

/// A declared name with its dimensions.
#[derive(Drop)]
pub struct Declarator {
    pub name: Name,
    pub dims: Items<Expr>,
}

/// One or more names of one type.
#[derive(Drop)]
pub struct Decl {
    pub ty: TypeText,
    pub names: Items<Declarator>,
}

/// A field of a struct.
#[derive(Drop)]
pub struct Field {
    pub ty: TypeText,
    pub of: Declarator,
}

/// A declared type. The name that is declared stands last.
#[derive(Drop)]
pub enum TypeItem {
    Alias(TypeText, Declarator),
    Enumeration(Items<Name>, Name),
    Structure(Items<Field>, Name),
    /// A sort, by its elements.
    Leaves(Items<Name>, Name),
    /// A sort, by the sorts that it joins.
    Children(Items<Name>, Name),
}

/// A definition, with the byte offset of its first token.
#[derive(Drop)]
pub struct Def {
    pub at: u64,
    pub name: Name,
    pub indices: Items<Slot>,
    pub part: Part,
}

/// What stands at one array level of a left side.
#[derive(Drop)]
pub enum Slot {
    /// A name for every position of the level.
    Index(Name),
    /// One position, with the byte offset of its number.
    Fixed { at: u64, value: i128 },
}

/// What a definition gives.
#[derive(Drop)]
pub enum Part {
    /// The value at every instant.
    Value(Expr),
    /// The value at the first instant, and that of the next one.
    Both(Expr, Expr),
    First(Expr),
    Next(Expr),
}

/// An expression with its place: the operator's token for infix forms, the first of a chain's; the bind's name for
/// a quantifier of a second or later bind; the first token for all others.
#[cycle(tree)]
#[derive(Drop)]
pub struct Expr {
    pub at: u64,
    pub form: Form,
}

/// The forms of an expression. Parentheses make none.
#[cycle(tree)]
#[derive(Drop)]
pub enum Form {
    Number(i128),
    Truth(bool),
    /// A name, and what is reached through it.
    Path(Name, Items<Reach>),
    /// The operators of one level, as they follow each other: a long chain has depth one.
    Chain(Boxed<Expr>, Items<Link>),
    Compare(Cmp, Boxed<Expr>, Boxed<Expr>),
    Minus(Boxed<Expr>),
    Not(Boxed<Expr>),
    /// `if`, with a branch for each condition, and `else`.
    Choice(Items<Branch>, Boxed<Expr>),
    /// The parts of an array or a struct.
    Group(Items<Expr>),
    /// One bind: a quantifier over several is one in another.
    Quant(Quant, Name, Domain, Boxed<Expr>),
    /// The value of the instant before, and the value at the first instant.
    Pre(Boxed<Expr>, Option<Boxed<Expr>>),
    Least(Items<Expr>),
    Greatest(Items<Expr>),
    /// The absolute value.
    Size(Boxed<Expr>),
    /// True at the first instant alone. It has no spelling.
    Starting,
    /// Whether the value lies in the interval. It has no spelling.
    Within(Boxed<Expr>, Interval),
}

/// A step into a part of a value.
#[cycle(tree)]
#[derive(Drop)]
pub enum Reach {
    /// An element of an array.
    At(Expr),
    /// A field of a struct.
    Field(Name),
}

/// An operator of a chain with the operand that follows it.
#[cycle(tree)]
#[derive(Drop)]
pub struct Link {
    pub op: Op,
    pub at: u64,
    pub with: Expr,
}

/// A condition with what stands for it.
#[cycle(tree)]
#[derive(Drop)]
pub struct Branch {
    pub when: Expr,
    pub gives: Expr,
}

/// The values of a bound name.
#[cycle(tree)]
#[derive(Drop)]
pub enum Domain {
    Bounds(Boxed<Expr>, Boxed<Expr>),
    Bool,
    Named(Name),
}

/// A quantifier.
#[derive(Clone, Copy, Debug, PartialEq, Eq)]
pub enum Quant {
    All,
    /// `SOME`
    Any,
    Sum,
}

/// An operator of a chain.
#[derive(Clone, Copy, Debug, PartialEq, Eq)]
pub enum Op {
    /// `<->`
    Same,
    /// `#!`
    Differ,
    /// `->`
    Implies,
    /// `#`
    Or,
    /// `&`
    And,
    /// `+`
    Plus,
    /// `-`
    Less,
    /// `*`
    Times,
    /// `/`
    Over,
    /// `%`
    Rest,
}

/// A comparison.
#[derive(Clone, Copy, Debug, PartialEq, Eq)]
pub enum Cmp {
    /// `=`
    Eq,
    /// `<>`
    Ne,
    /// `<`
    Lt,
    /// `<=`
    Le,
    /// `>`
    Gt,
    /// `>=`
    Ge,
}

/// How tightly the operators of chains bind: the loosest first.
#[derive(Clone, Copy, Debug, PartialEq, Eq)]
pub enum Precedence {
    /// `<->` and `#!`
    Equivalence,
    /// `->`
    Implication,
    /// `#`
    Disjunction,
    /// `&`
    Conjunction,
    /// `+` and `-`
    Sum,
    /// `*`, `/` and `%`
    Product,
}
