//! The worked examples, proved of the definitions.

ghost use Rattle.std.specs.Prelude.{◌≡◌, true};
ghost use Rattle.samples.specs.Examples.{all_hold, examples};

/// Every worked example of the table comes out as it should.
pub fn examples_hold()
    ensures { all_hold examples ≡ true }
{}
