//! The codes of a type's values, by which an invariant names items of any type.
ghost use base.Stored.{Coded};

/// The code of a type's values, which the invariant of a struct cannot name otherwise. Every type has it.
pub trait Coding {
    /// The code: two values with one code are equal.
    ghost coding: { Coded Self };
}

impl<T> Coding for T {
    ghost coding = { T.row.coded };
}
