//! The lines of a configuration, each with its section.
use conf_line::{SectionKind, Statement};
use list_core::Seq;
use std::marker::Model;
use text_core::Word;

/// The section of a line. A line that opens a section is in that section.
#[derive(Drop)]
pub struct SectionPlace<'a> {
    pub kind: SectionKind,
    /// The section's name, empty where it has none.
    pub name: Word<'a>,
    /// Which item of the tree opens the section, from 0.
    pub first: usize,
}

/// What a line says, with its number and its section.
#[derive(Drop)]
pub struct ConfigLine<'a> {
    /// From 1.
    pub line: u32,
    pub place: SectionPlace<'a>,
    pub statement: Statement<'a>,
}

/// What the lines of a configuration say that have an effect. Contracts see the list of its items, in
/// the order of the lines.
#[derive(Drop)]
pub struct Tree<'a> {
    items: Seq<ConfigLine<'a>>,
}

impl<'a> Model for Tree<'a> {
    ghost use Rattle.std.specs.Prelude.{List};
    ghost use Rattle.conf_tree.specs.declared.tree.ConfigLine.{ConfigLine};
    ghost use Rattle.conf_tree.specs.Sound.{IsSoundTree};

    ghost Value = { List ConfigLine };

    ghost view = { λ t. t.items };

    ghost invariant = { λ t. IsSoundTree t.items };
}

impl<'a> Tree<'a> {
    ghost use Rattle.std.specs.Prelude.{◌≡◌};
    ghost use Rattle.conf_tree.specs.Sound.{IsSoundTree};

    /// The items, in the order of the lines. A line without effect has none.
    pub fn items(&self) -> &[ConfigLine<'a>]
        ensures items { result.now ≡ self.now }
        ensures sound { IsSoundTree self.now }
    {
        self.items.as_slice()
    }

    /// The tree of those items.
    pub(crate) fn of(items: Seq<ConfigLine<'a>>) -> Self
        requires { IsSoundTree items }
        ensures { result ≡ items.entry }
    {
        Tree { items }
    }
}
