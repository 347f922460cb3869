//! The number of values of each row of an INSERT.
ghost use Rattle.par_base.specs.Checked.{Gives};
ghost use Rattle.engine_statements.specs.Statements.{right_counts};

use par_base::{Fault, Refusal, Row};

/// Refuses the first row that has another number of values.
#[tactic(auto, unfolding(crate::specs::Statements::right_counts))]
pub fn check_counts(rows: &[Row], wanted: usize) -> Result<(), Fault<Refusal>>
    ensures { Gives (λ x. x) result (right_counts wanted rows.now) }
{
    for row in rows {
        if row.len() != wanted {
            return Err(Fault::Refused(Refusal::WrongCount {
                given: row.len() as u64,
                wanted: wanted as u64,
            }));
        }
    }
    Ok(())
}
