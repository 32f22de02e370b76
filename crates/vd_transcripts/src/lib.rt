//! What a transcript is, when it fits, and what a checker writes of it; where bytes came from, for a whole history.
//!
//! These are definitions over those of the history machine, in `specs/`. No checker's code stands under them: two
//! worked transcripts are computed by them alone.
#![tactic(auto)]

ghost use Rattle.vd_transcripts.specs.Rows.{FirstFits, LastDoesNot};

/// A transcript that fits is written of so, and so is one whose last reply isn't the answer.
pub fn worked_transcripts()
    ensures fits { FirstFits }
    ensures last { LastDoesNot }
{}
