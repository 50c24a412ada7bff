//! What each step on the words tells.
use crate::view::View;
use atomic_table::{Join, Play, Split, TableRule};
use std::marker::{Brand, PhantomData};

/// Which insert a count publishes. Each call picks it.
pub trait Naming {
    ghost use Rattle.order_query.specs.declared.view.Insert.{Insert};

    ghost insert: { Insert };
}

impl Naming for Brand {
    ghost use Rattle.order_query.specs.Plays.{no_insert};

    ghost insert = { no_insert };
}

/// The order rule. The key is the number of words behind those of item 0.
pub struct Rule;

impl TableRule<(), View, usize> for Rule {
    ghost use Rattle.order_query.specs.Rule.{OrderRule};
    ghost use Rattle.order_query.specs.Plays.{first_writer};

    ghost holds = { λ _. OrderRule };

    ghost first = { first_writer };
}

/// A reader loads the version.
pub struct LoadsVersion;

impl Play<(), View> for LoadsVersion {
    ghost use Rattle.order_query.specs.Plays.{LoadedVersion};

    ghost then = { LoadedVersion };
}

/// A reader loads a label.
pub struct LoadsLabel;

impl Play<(), View> for LoadsLabel {
    ghost use Rattle.order_query.specs.Plays.{LoadedLabel};

    ghost then = { LoadedLabel };
}

/// The writer stores the version or a label.
pub struct Stores;

impl Play<(), View> for Stores {
    ghost use Rattle.order_query.specs.Plays.{Stored};

    ghost then = { Stored };
}

/// The writer stores the count, which publishes an insert.
pub struct Counts<N> {
    of: PhantomData<N>,
}

impl<N: Naming> Play<(), View> for Counts<N> {
    ghost use Rattle.order_query.specs.Plays.{Counted};

    ghost then = { Counted N.insert };
}

/// A new reader knows the same items, or a reader takes in what another knows.
pub struct Readers;

impl Split<View> for Readers {
    ghost use Rattle.order_query.specs.Plays.{reader_of};

    ghost left = { λ v. v };

    ghost right = { λ v. reader_of v.log };
}

impl Join<View> for Readers {
    ghost use Rattle.std.specs.Prelude.{[]};
    ghost use Rattle.order_query.specs.Plays.{joined, reader_of};

    ghost both = { joined };

    ghost spent = { reader_of [] };
}
