//! The fixed words of reply lines.

ghost use Rattle.std.specs.Prelude.{◌≡◌, ◌≤◌, length};
ghost use Rattle.vd_model.specs.Replies.{tag_text, kind_text, first_word};

use vd_model::{Answer, ChainKind, Tag};

/// A fixed word behind `ok`.
#[tactic(auto, unfolding(vd_model::specs::Replies::tag_text))]
pub fn tag_text_of(tag: Tag) -> &'static [u8]
    ensures text { result.now ≡ tag_text tag }
    ensures short { length result.now ≤ 10 }
{
    match tag {
        Tag::Session => b"session",
        Tag::Iova => b"iova",
        Tag::Desc => b"desc",
        Tag::Driver => b"driver",
        Tag::Device => b"device",
        Tag::Capability => b"capability",
        Tag::Start => b"start",
        Tag::Last => b"last",
        Tag::Offset => b"offset",
        Tag::Perm => b"perm",
        Tag::Base => b"base",
        Tag::Id => b"id",
        Tag::Status => b"status",
        Tag::VqState => b"vqstate",
        Tag::Iotlb => b"iotlb",
        Tag::Avail => b"avail",
        Tag::Num => b"num",
        Tag::Ready => b"ready",
        Tag::Head => b"head",
        Tag::Kind => b"type",
        Tag::Sector => b"sector",
        Tag::Len => b"len",
        Tag::Irq => b"irq",
        Tag::Idx => b"idx",
        Tag::Kick => b"kick",
        Tag::Buf => b"buf",
        Tag::Map => b"map",
        Tag::Parts => b"parts",
        Tag::Readable => b"readable",
        Tag::Writable => b"writable",
        Tag::Dash => b"-",
    }
}

/// What is wrong with a chain.
#[tactic(auto, unfolding(vd_model::specs::Replies::kind_text))]
pub fn kind_text_of(kind: ChainKind) -> &'static [u8]
    ensures text { result.now ≡ kind_text kind }
    ensures short { length result.now ≤ 6 }
{
    match kind {
        ChainKind::Head => b"head",
        ChainKind::Loop => b"loop",
        ChainKind::Next => b"next",
        ChainKind::Order => b"order",
        ChainKind::Shape => b"shape",
        ChainKind::Nested => b"nested",
        ChainKind::Long => b"long",
    }
}

/// The first word of a reply.
#[tactic(auto, unfolding(vd_model::specs::Replies::first_word))]
pub fn first_word_of(answer: &Answer) -> &'static [u8]
    ensures text { result.now ≡ first_word answer.now }
    ensures short { length result.now ≤ 7 }
{
    match answer {
        Answer::Done(_) => b"ok",
        Answer::Err(_) => b"err",
        Answer::Bus { .. } => b"bus",
        Answer::Chain(_) => b"chain",
        Answer::Shape { .. } => b"shape",
        Answer::Ahead { .. } => b"ahead",
        Answer::UsedAhead { .. } | Answer::BadId { .. } => b"used",
        Answer::Pending => b"pending",
        Answer::FailedReply { .. } | Answer::FailedTimeout { .. } => b"failed",
    }
}
