// The laws of frames, each the contract of a function.
#![tactic(auto)]

ghost use Rattle.feed_laws.specs.Laws.{ReadingReturnsWhatWasWritten, WritingWhatWasReadGivesTheSameBytes, EveryReaderFindsEveryMessage, UnknownTypesAreSteppedOver, GrownAtItsEndReadsAsBefore, PublishedExamplesRead};

#[tactic(auto, using(crate::proofs::Walks::written_trip))]
pub fn reading_returns_what_was_written()
    ensures { ReadingReturnsWhatWasWritten }
{}

#[tactic(auto, using(crate::proofs::Trips::same_bytes))]
pub fn writing_what_was_read_gives_the_same_bytes()
    ensures { WritingWhatWasReadGivesTheSameBytes }
{}

#[tactic(auto, using(crate::proofs::Walks::grown_frame))]
pub fn grown_at_its_end_reads_as_before()
    ensures { GrownAtItsEndReadsAsBefore }
{}

#[tactic(auto, using(crate::proofs::Walks::every_place))]
pub fn every_reader_finds_every_message()
    ensures { EveryReaderFindsEveryMessage }
{}

#[tactic(auto, using(crate::proofs::Walks::stepped_over))]
pub fn unknown_types_are_stepped_over()
    ensures { UnknownTypesAreSteppedOver }
{}

#[tactic(auto, unfolding(feed::specs::Layouts::flaw))]
pub fn published_examples_read()
    ensures { PublishedExamplesRead }
{}
