//! The law of reading by an index.

ghost use Rattle.std.specs.Prelude.{Bool, List};
ghost use Rattle.expand_api.specs.Digits.Readings.{ReadsRows, ReadsSigned};

/// Reading a row by an index, by equalities and by a tree.
pub fn reading()
    ensures rows { (index : List Bool) (rows : List (List Bool)) (other : List Bool) →
        ReadsRows index rows other }
    ensures signed_index { (index : List Bool) (rows : List (List Bool)) (other : List Bool) →
        ReadsSigned index rows other }
{}
