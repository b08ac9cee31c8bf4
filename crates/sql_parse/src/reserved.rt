//! The reserved words of the grammar, by their places in the list.
use crate::front::Mark;

pub(crate) const ALL: Mark = Mark::Word(0);

pub(crate) const AND: Mark = Mark::Word(1);

pub(crate) const AS: Mark = Mark::Word(3);

pub(crate) const BETWEEN: Mark = Mark::Word(4);

pub(crate) const BY: Mark = Mark::Word(5);

pub(crate) const CHECK: Mark = Mark::Word(7);

pub(crate) const CONSTRAINT: Mark = Mark::Word(8);

pub(crate) const CREATE: Mark = Mark::Word(9);

pub(crate) const CROSS: Mark = Mark::Word(10);

pub(crate) const DISTINCT: Mark = Mark::Word(11);

pub(crate) const EXISTS: Mark = Mark::Word(13);

pub(crate) const FOREIGN: Mark = Mark::Word(14);

pub(crate) const FROM: Mark = Mark::Word(15);

pub(crate) const IN: Mark = Mark::Word(19);

pub(crate) const INNER: Mark = Mark::Word(20);

pub(crate) const IS: Mark = Mark::Word(22);

pub(crate) const JOIN: Mark = Mark::Word(23);

pub(crate) const NOT: Mark = Mark::Word(27);

pub(crate) const NULL: Mark = Mark::Word(28);

pub(crate) const ON: Mark = Mark::Word(29);

pub(crate) const OR: Mark = Mark::Word(30);

pub(crate) const ORDER: Mark = Mark::Word(31);

pub(crate) const PRIMARY: Mark = Mark::Word(33);

pub(crate) const REFERENCES: Mark = Mark::Word(34);

pub(crate) const SELECT: Mark = Mark::Word(36);

pub(crate) const TABLE: Mark = Mark::Word(38);

pub(crate) const UNIQUE: Mark = Mark::Word(40);

pub(crate) const WHERE: Mark = Mark::Word(42);
