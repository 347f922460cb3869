//! A law of runs, the contract of a function that does nothing.
ghost use Rattle.script_run.specs.Statuses.{OneText};

/// Where nothing fails, the run of any bytes puts one text.
pub fn text_is_one()
    ensures { OneText }
{}
