// Rewriting: a text is read, and its instant's ISO text is written.
#![tactic(auto)]

ghost use Rattle.writer.specs.Outcome.{Leaves};
ghost use Rattle.rewrite.specs.Rewrite.{rewrite_outcome};

use answer::{Refusal, Text};

#[tactic(auto, unfolding(crate::specs::Rewrite::rewrite_outcome))]
pub fn rewrite(zone: &[u8], text: &[u8], output: &mut [u8]) -> Result<Text, Refusal>
    ensures { Leaves (rewrite_outcome zone.now text.now output.old) result output.new }
{
    let instant = reader::read(zone, text)?;
    writer::to_iso_string(instant, output)
}
