//! The first pass: constants, types, inputs and declarations, in the order of the text.

ghost use Rattle.std.specs.Prelude.{◌≡◌, ◌++◌, ◌∷◌, [], ℕ, List, true, false, map, IfErr, IsSome, OnOk};
ghost use Rattle.hll_tree.specs.declared.tree.TypeItem.TheVariants.{Alias, Structure};
ghost use Rattle.std.specs.List.{flat_map};
ghost use Rattle.hll_meaning.specs.Declarations.{a_constant, a_type, is_among, items_in, texts, variables_of};
ghost use Rattle.hll_meaning.specs.Names.{Names};
ghost use Rattle.hll_meaning.specs.StaticRules.{elements_of, fresh_name, taken_by};
ghost use Rattle.hll_meaning.specs.Types.{kind_of};
ghost use Rattle.hll_expressions.specs.declared.faults.StaticFault.TheVariants.{Memory};
ghost use Rattle.hll_expressions.specs.Answers.{IsJudged};
ghost use Rattle.hll_types.specs.Declaring.{AreAllDeclared, AreDeclared, AreElements, AreExpected, AreFields, AreVariables, Declares, IsConstant, IsField, IsVariable, IsPassed, IsTruthValue, IsWholeNumber, SortIsDeclared, IsAfter, early_in_section, start};
ghost use Rattle.hll_expressions.specs.Described.{number_of};
ghost use Rattle.hll_expressions.specs.Scopes.{context};
ghost use Rattle.hll_types.specs.Standing.{IsKindWithDims, IsKindWritten, Stand};
ghost use Rattle.hll_expressions.specs.Things.{declared_names, IsAdded};
ghost use Rattle.hll_expressions.specs.Things.{names_of, said_of};

use crate::measure::{MOST_CELLS, Measure, measure_of};
use crate::seen::Seen;
use crate::sorts::{Sorts, codes};
use crate::written::{with_dims, written};
use hll_expressions::{
    Bounds, Given, Narrow, Scope, StaticFault, Thing, Things, judge, push, refuse_if, truth, whole,
};
use hll_lexer::Word;
use hll_meaning::{FieldTy, StaticKind, Ty};
use hll_tree::{
    ConstItem, Decl, Declarator, Expr, Field, HllModel, Name, Section, TypeItem, TypeText,
};
use sqlite_items::Items;
use std::alloc::Global;

/// What is declared so far: names, sorts, and the cells of the variables.
#[derive(Drop)]
pub struct Declared<'a> {
    pub alloc: Global,
    pub names: Things,
    pub sorts: Sorts<'a>,
    pub cells: u64,
}

/// The value of a constant, which is a truth value.
fn truth_value(value: &Given) -> Result<Thing, StaticFault>
    requires { IsSome (number_of value.now) }
    ensures { IsTruthValue value.now result }
{
    truth(value)?;
    match value.number() {
        Some(number) => Ok(Thing::Truth(number != 0)),
        None => unreachable!(),
    }
}

/// The value of a constant, which is a whole number.
fn whole_number(value: &Given) -> Result<Thing, StaticFault>
    requires { IsSome (number_of value.now) }
    ensures { IsWholeNumber value.now result }
{
    whole(value)?;
    match value.number() {
        Some(number) => match Narrow::new(number) {
            Some(number) => Ok(Thing::Number(number)),
            None => Err(StaticFault::Memory),
        },
        None => unreachable!(),
    }
}

impl<'a> Declared<'a> {
    pub fn new(alloc: Global) -> Declared<'a>
        ensures { IsAfter result start [] }
    {
        Declared {
            alloc,
            names: Things::new(alloc),
            sorts: Sorts::new(alloc),
            cells: 0,
        }
    }

    /// Where an expression of a declaration stands.
    fn scope(&self) -> Scope<'_>
        ensures { context result ≡ record { names = names_of self.now.names; bound = []; needs_constant = true } }
    {
        Scope {
            alloc: self.alloc,
            names: &self.names,
            bound: Bounds::Indices(&[]),
            needs_constant: true,
        }
    }

    /// A type as it is written.
    fn written(&self, text: &TypeText) -> Result<Ty, StaticFault>
        ensures { (names : Names) (further : List (List ℕ)) → Stand self.now.names names further → IsKindWritten names further text.now result }
    {
        written(&self.scope(), text)
    }

    /// A type with dimensions.
    fn with_dims(&self, each: Ty, dims: &[Expr]) -> Result<Ty, StaticFault>
        ensures { (names : Names) (further : List (List ℕ)) → Stand self.now.names names further → IsKindWithDims names further dims.now (kind_of each) result }
    {
        with_dims(&self.scope(), each, dims)
    }

    /// A name that is new.
    fn fresh(&self, name: &Name) -> Result<(), StaticFault>
        ensures { IsJudged (fresh_name (taken_by (declared_names self.now.names)) name.now) result }
    {
        refuse_if(
            self.names.holds(name.text.bytes()),
            StaticKind::Twice,
            name.at,
        )
    }

    /// Declares a new name.
    fn declare(&mut self, name: &Name, thing: Thing) -> Result<(), StaticFault>
        ensures declared { OnOk result (is_among (taken_by (declared_names self.old.names)) name.now.text ≡ false → IsAdded self.old.names self.new.names (declared_names self.old.names ++ (name.now.text, said_of thing) ∷ [])) }
        ensures others { (self.new.sorts ≡ self.old.sorts) × (self.new.cells ≡ self.old.cells) }
        ensures memory { IfErr result (λ wrong. wrong ≡ Memory) }
    {
        self.names.declare(name.text.bytes(), thing)?;
        Ok(())
    }

    /// The value of a constant: a truth value or a whole number.
    fn constant_value(&self, item: &ConstItem) -> Result<Thing, StaticFault>
        ensures { (names : Names) (further : List (List ℕ)) → Stand self.now.names names further → IsConstant names further item.now result }
    {
        let value = judge(&self.scope(), &item.value)?;
        if item.boolean {
            truth_value(&value)
        } else {
            whole_number(&value)
        }
    }

    /// A constant.
    fn constant(&mut self, item: &'a ConstItem) -> Result<(), StaticFault>
        ensures { Declares self.old self.new (a_constant item.now) result }
    {
        self.fresh(&item.name)?;
        let value = self.constant_value(item)?;
        self.declare(&item.name, value)
    }

    /// Elements with their codes.
    fn elements(&mut self, names: &'a [Name], sort: &'a Name) -> Result<(), StaticFault>
        ensures { AreElements self.old self.new names.now sort.now result }
    {
        for (place, name) in names.iter().enumerate() {
            self.fresh(name)?;
            let root = Word::new(self.alloc, sort.text.bytes())?;
            let code = place as u64;
            self.declare(name, Thing::Element { root, code })?;
        }
        Ok(())
    }

    /// The type of an enumeration or a sort with so many elements.
    fn sort(&mut self, name: &'a Name, is_sort: bool, count: u64) -> Result<(), StaticFault>
        ensures { SortIsDeclared self.old self.new name.now is_sort count result }
    {
        self.fresh(name)?;
        self.sorts.declare(name.text.bytes(), is_sort, count)?;
        let root = Word::new(self.alloc, name.text.bytes())?;
        self.declare(name, Thing::Type(Ty::Elem(root, codes(count))))
    }

    /// A field of a struct, whose name is none of those before it.
    fn field(&self, before: &mut Seen<'a>, item: &'a Field) -> Result<Ty, StaticFault>
        ensures { (names : Names) (further : List (List ℕ)) → Stand self.now.names names further → IsField names further before.old before.new item.now result }
    {
        before.insert(&item.of.name)?;
        let each = self.written(&item.ty)?;
        self.with_dims(each, item.of.dims.as_slice())
    }

    /// The fields of a struct, and their measure together. Where they are too large, types are no longer kept.
    fn fields(&self, items: &'a [Field]) -> Result<(Items<FieldTy>, Measure), StaticFault>
        ensures { (names : Names) (further : List (List ℕ)) → Stand self.now.names names further → AreFields names further items.now result }
    {
        let mut before = Seen::new(self.alloc);
        let mut fields = Items::new(self.alloc);
        let mut all = Measure {
            cells: 0,
            levels: 0,
        };
        for item in items {
            let ty = self.field(&mut before, item)?;
            let one = measure_of(&ty);
            all = Measure {
                cells: all.cells.saturating_add(one.cells),
                levels: all.levels.max(one.levels),
            };
            let name = Word::new(self.alloc, item.of.name.text.bytes())?;
            let kept = if all.is_large() { Ty::Bool } else { ty };
            fields.push(FieldTy { name, ty: kept })?;
        }
        let levels = all.levels.saturating_add(1);
        Ok((
            fields,
            Measure {
                cells: all.cells,
                levels,
            },
        ))
    }

    /// A struct.
    fn structure(&mut self, items: &'a [Field], name: &'a Name) -> Result<(), StaticFault>
        ensures { Declares self.old self.new (a_type (Structure items.now name.now)) result }
    {
        let (fields, size) = self.fields(items)?;
        self.fresh(name)?;
        refuse_if(size.is_large(), StaticKind::Cells, name.at)?;
        let own = Word::new(self.alloc, name.text.bytes())?;
        self.declare(name, Thing::Type(Ty::Struct(own, fields)))
    }

    /// Another name for a type, with dimensions.
    fn alias(&mut self, item: &'a TypeText, declarator: &'a Declarator) -> Result<(), StaticFault>
        ensures { Declares self.old self.new (a_type (Alias item.now declarator.now)) result }
    {
        let each = self.written(item)?;
        self.fresh(&declarator.name)?;
        let ty = self.with_dims(each, declarator.dims.as_slice())?;
        refuse_if(
            measure_of(&ty).is_large(),
            StaticKind::Cells,
            declarator.name.at,
        )?;
        self.declare(&declarator.name, Thing::Type(ty))
    }

    /// A declared type.
    fn type_item(&mut self, item: &'a TypeItem) -> Result<(), StaticFault>
        ensures { Declares self.old self.new (a_type item.now) result }
    {
        match item {
            TypeItem::Alias(ty, declarator) => self.alias(ty, declarator),
            TypeItem::Enumeration(names, name) => {
                self.elements(names.as_slice(), name)?;
                self.sort(name, false, names.len() as u64)
            }
            TypeItem::Structure(fields, name) => self.structure(fields.as_slice(), name),
            TypeItem::Leaves(names, name) => {
                self.elements(names.as_slice(), name)?;
                self.sort(name, true, names.len() as u64)
            }
            TypeItem::Children(children, name) => {
                let count = self.sorts.children(&self.names, children.as_slice())?;
                self.sort(name, true, count)
            }
        }
    }

    /// One variable of a declaration, after others of it and so many cells: its type, and the cells with its own.
    fn variable(
        &self,
        before: &mut Seen<'a>,
        total: u64,
        each: &Ty,
        declarator: &'a Declarator,
    ) -> Result<(Ty, u64), StaticFault>
        ensures { (names : Names) (further : List (List ℕ)) → Stand self.now.names names further → IsVariable names further before.old before.new total (kind_of each.now) declarator.now result }
    {
        self.fresh(&declarator.name)?;
        before.insert(&declarator.name)?;
        let ty = self.with_dims(each.copy(self.alloc)?, declarator.dims.as_slice())?;
        let size = measure_of(&ty);
        let total = total.saturating_add(size.cells);
        refuse_if(
            size.is_large() || total > MOST_CELLS,
            StaticKind::Cells,
            declarator.name.at,
        )?;
        Ok((ty, total))
    }

    /// The types of the variables of a declaration, and the cells with theirs.
    fn kinds(&self, each: &Ty, declarators: &'a [Declarator]) -> Result<(Vec<Ty>, u64), StaticFault>
        ensures { (names : Names) (further : List (List ℕ)) → Stand self.now.names names further → AreVariables names further self.now.cells (kind_of each.now) declarators.now result }
    {
        let mut before = Seen::new(self.alloc);
        let mut kinds = Vec::new(self.alloc);
        let mut total = self.cells;
        for declarator in declarators {
            let (ty, more) = self.variable(&mut before, total, each, declarator)?;
            push(&mut kinds, ty)?;
            total = more;
        }
        Ok((kinds, total))
    }

    /// Declares variables with their types.
    fn declare_all(
        &mut self,
        input: bool,
        declarators: &'a [Declarator],
        kinds: &[Ty],
    ) -> Result<(), StaticFault>
        ensures { AreAllDeclared self.old self.new input declarators.now kinds.now result }
    {
        for (place, declarator) in declarators.iter().enumerate() {
            match kinds.get(place) {
                Some(ty) => {
                    let ty = ty.copy(self.alloc)?;
                    self.declare(&declarator.name, Thing::Variable { input, ty })?;
                }
                None => return Ok(()),
            }
        }
        Ok(())
    }

    /// A declaration of variables. Each is declared once all are looked at, since none is known to the others.
    fn variables(&mut self, input: bool, decl: &'a Decl) -> Result<(), StaticFault>
        ensures { Declares self.old self.new (variables_of input decl.now) result }
    {
        let each = self.written(&decl.ty)?;
        let (kinds, total) = self.kinds(&each, decl.names.as_slice())?;
        self.declare_all(input, decl.names.as_slice(), kinds.as_slice())?;
        self.cells = total;
        Ok(())
    }

    /// Constants.
    fn all_constants(&mut self, items: &'a [ConstItem]) -> Result<(), StaticFault>
        ensures { AreDeclared self.old self.new (map a_constant items.now) result }
    {
        for item in items {
            self.constant(item)?;
        }
        Ok(())
    }

    /// Declared types.
    fn all_types(&mut self, items: &'a [TypeItem]) -> Result<(), StaticFault>
        ensures { AreDeclared self.old self.new (map a_type items.now) result }
    {
        for item in items {
            self.type_item(item)?;
        }
        Ok(())
    }

    /// What a section declares.
    fn section(&mut self, section: &'a Section) -> Result<(), StaticFault>
        ensures { AreDeclared self.old self.new (items_in section.now) result }
    {
        match section {
            Section::Constants(items) => self.all_constants(items.as_slice()),
            Section::Types(items) => self.all_types(items.as_slice()),
            Section::Inputs(decls) => self.all_variables(true, decls.as_slice()),
            Section::Declarations(decls) => self.all_variables(false, decls.as_slice()),
            Section::Definitions(_) | Section::Constraints(_) | Section::Obligations(_) => Ok(()),
        }
    }

    /// Declarations of variables.
    fn all_variables(&mut self, input: bool, decls: &'a [Decl]) -> Result<(), StaticFault>
        ensures { AreDeclared self.old self.new (map (variables_of input) decls.now) result }
    {
        for decl in decls {
            self.variables(input, decl)?;
        }
        Ok(())
    }

    /// Notes names.
    fn expect_names(&mut self, names: &[Name]) -> Result<(), StaticFault>
        ensures { AreExpected self.old self.new (texts names.now) result }
    {
        for name in names {
            self.names.expect(name.text.bytes())?;
        }
        Ok(())
    }

    /// Notes the elements of a type.
    fn expect_elements(&mut self, item: &TypeItem) -> Result<(), StaticFault>
        ensures { AreExpected self.old self.new (elements_of item.now) result }
    {
        match item {
            TypeItem::Enumeration(names, _) | TypeItem::Leaves(names, _) => {
                self.expect_names(names.as_slice())
            }
            TypeItem::Alias(_, _) | TypeItem::Structure(_, _) | TypeItem::Children(_, _) => Ok(()),
        }
    }

    /// Notes the variables of a declaration.
    fn expect_variables(&mut self, decl: &Decl) -> Result<(), StaticFault>
        ensures { AreExpected self.old self.new (map (λ d. d.name.text) decl.now.names) result }
    {
        for declarator in decl.names.as_slice() {
            self.names.expect(declarator.name.text.bytes())?;
        }
        Ok(())
    }

    /// Notes the elements of types.
    fn expect_types(&mut self, items: &[TypeItem]) -> Result<(), StaticFault>
        ensures { AreExpected self.old self.new (flat_map elements_of items.now) result }
    {
        for item in items {
            self.expect_elements(item)?;
        }
        Ok(())
    }

    /// Notes the variables of declarations.
    fn expect_all(&mut self, decls: &[Decl]) -> Result<(), StaticFault>
        ensures { AreExpected self.old self.new (flat_map (λ decl. map (λ d. d.name.text) decl.names) decls.now) result }
    {
        for decl in decls {
            self.expect_variables(decl)?;
        }
        Ok(())
    }

    /// Notes the variables and elements of a section.
    fn expect(&mut self, section: &Section) -> Result<(), StaticFault>
        ensures { AreExpected self.old self.new (early_in_section section.now) result }
    {
        match section {
            Section::Types(items) => self.expect_types(items.as_slice()),
            Section::Inputs(decls) => self.expect_all(decls.as_slice()),
            Section::Declarations(decls) => self.expect_all(decls.as_slice()),
            Section::Constants(_) => Ok(()),
            Section::Definitions(_) => Ok(()),
            Section::Constraints(_) => Ok(()),
            Section::Obligations(_) => Ok(()),
        }
    }
}

/// The first pass over a text.
pub fn declare<'a>(alloc: Global, model: &'a HllModel) -> Result<Declared<'a>, StaticFault>
    ensures { IsPassed model.now result }
{
    let mut declared = Declared::new(alloc);
    for section in model.sections.as_slice() {
        declared.expect(section)?;
    }
    for section in model.sections.as_slice() {
        declared.section(section)?;
    }
    Ok(declared)
}
