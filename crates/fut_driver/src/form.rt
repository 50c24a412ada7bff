//! Which text of a run is due.
ghost use Rattle.std.specs.Prelude.{◌≡◌};
ghost use Rattle.fut_driver.specs.Due.{form_of};

/// A text that is made of a run.
#[derive(Clone, Copy)]
pub enum Form {
    /// The whole record.
    Record,
    /// The brief text.
    Brief,
    /// The brief text, with the line of the sum.
    Summed,
}

impl Form {
    /// The brief text where it is asked for, or the record.
    pub fn of(brief: bool) -> Form
        ensures { result ≡ form_of brief }
    {
        if brief { Form::Brief } else { Form::Record }
    }
}
