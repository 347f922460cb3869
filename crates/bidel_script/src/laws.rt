//! Laws of scripts, each the contract of a function that does nothing.
ghost use Rattle.bidel_script.specs.Script.{FaultIsNoScript, FaultsStay, FrontsComeFirst, LongStays, OneComes, OneScript, OverIsScript};
ghost use Rattle.bidel_script.specs.Tails.{TokensAreKnown};
ghost use Rattle.bidel_script.specs.Moved.{BlanksGo, UsedBytesGo};

/// Bytes are the script of at most one list of statements.
pub fn script_is_one()
    ensures { OneScript }
{}

/// Bytes that are whole statements and nothing else are their script.
pub fn over_is_script()
    ensures { OverIsScript }
{}

/// Bytes with a fault are no script.
pub fn fault_is_no_script()
    ensures { FaultIsNoScript }
{}

/// Any bytes fix one list of statements, and one thing stands behind them.
pub fn run_is_one()
    ensures { OneComes }
{}

/// Exactly so many first bytes show a token as it is said to be known by.
pub fn tokens_are_known()
    ensures { TokensAreKnown }
{}

/// Bytes that are cut off fix the first of the statements that all of them fix.
pub fn fronts_come_first()
    ensures { FrontsComeFirst }
{}

/// A fault in bytes that are cut off is that of all of them.
pub fn faults_stay()
    ensures { FaultsStay }
{}

/// What is too long in bytes that are cut off is too long in all of them.
pub fn long_stays()
    ensures { LongStays }
{}

/// Behind statements that some first bytes fix the other bytes say what they say by themselves.
pub fn used_bytes_go()
    ensures { UsedBytesGo }
{}

/// White space and comments before the first statement change nothing but places.
pub fn blanks_go()
    ensures { BlanksGo }
{}
