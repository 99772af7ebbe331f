//! What the batches that a reader hands out come to. Each function here does nothing when it runs: its contract is the law.
ghost use Rattle.std.specs.Prelude.{◌≡◌, ◌<◌, ◌++◌, ◌∷◌, [], ℕ, List, Ok, Err, Some, None, IfSome, take, length};
ghost use Rattle.std.specs.declared.option.Option.{Option};
ghost use Rattle.iso2709_frame.specs.Frames.{frames};
ghost use Rattle.catalogue_editions.specs.CurrentRecords.{MapOf, after_batch, outcomes};
ghost use Rattle.catalogue_editions.specs.declared.batch.Batch.{Batch};
ghost use Rattle.catalogue_editions.specs.declared.edition.Edition.{Edition};
ghost use Rattle.library_batches.specs.Batches.{AreBatches, AreFirstBatches};
ghost use Rattle.library_batches.specs.Handing.{HandsOut, IsRead};
ghost use Rattle.library_batches.specs.Outcomes.{found_in, after_batches};
ghost use Rattle.library_batches.specs.Reading.{AnswersBatch, Batching, begun};
ghost use Rattle.library_batches.specs.Streams.{Frame};
ghost use Rattle.library_batches.specs.declared.stop.Stop.TheVariants.{TooLong as TooLongStop};

/// A reader that was asked for nothing yet has handed out nothing.
pub fn nothing_is_handed_out_at_first()
    ensures { (prefer : List (List ℕ)) (library : List ℕ) (limit : ℕ) (left : Option (List ℕ))
        → HandsOut prefer library limit left [] (begun prefer library limit) left }
{}

/// A batch that is answered is after those that were handed out before.
pub fn a_batch_is_behind_the_others()
    ensures { (prefer : List (List ℕ)) (library : List ℕ) (limit : ℕ)
        (left before now : Option (List ℕ)) (done : List Batch)
        (batch : Batch) (a b : Batching)
        → HandsOut prefer library limit left done a before
        → AnswersBatch (Ok (Some batch)) a before b now
        → HandsOut prefer library limit left (done ++ batch ∷ []) b now }
{}

/// Where no batch is answered any more, the source was read to its end, within the limit.
pub fn all_is_handed_out_at_the_end()
    ensures { (prefer : List (List ℕ)) (library : List ℕ) (limit : ℕ)
        (left before now : Option (List ℕ)) (done : List Batch)
        (a b : Batching)
        → HandsOut prefer library limit left done a before → AnswersBatch (Ok None) a before b now
        → IfSome left (λ bytes. IsRead prefer library limit bytes done b) }
{}

/// Where TooLong is answered, the source has more bytes than the limit.
pub fn a_source_that_is_too_long_has_more_bytes()
    ensures { (prefer : List (List ℕ)) (library : List ℕ) (limit : ℕ)
        (left before now : Option (List ℕ)) (done : List Batch)
        (a b : Batching)
        → HandsOut prefer library limit left done a before
        → AnswersBatch (Err TooLongStop) a before b now
        → IfSome left (λ bytes. limit < length bytes) }
{}

/// What was handed out by any time are the first batches of the bytes within the limit.
pub fn the_first_batches_are_handed_out()
    ensures { (prefer : List (List ℕ)) (library : List ℕ) (limit : ℕ)
        (left before : Option (List ℕ)) (done : List Batch) (a : Batching)
        → HandsOut prefer library limit left done a before
        → IfSome left (λ bytes. AreFirstBatches prefer library (frames (take limit bytes)) done) }
{}

/// The batches of a stream are determined by its frames.
pub fn batches_are_determined_by_frames()
    ensures { (prefer : List (List ℕ)) (library : List ℕ) (frames : List Frame)
        (one other : List Batch)
        → AreBatches prefer library frames one → AreBatches prefer library frames other
        → one ≡ other }
{}

/// What comes of one batch more, and which records are current after it.
pub fn one_more_batch_is_applied()
    ensures outcomes { (all : MapOf Edition) (batches : List Batch) (batch : Batch)
        → found_in all (batches ++ batch ∷ []) ≡ found_in all batches
        ++ outcomes batch.library (after_batches all batches) batch.ops }
    ensures current { (all : MapOf Edition) (batches : List Batch) (batch : Batch)
        → after_batches all (batches ++ batch ∷ [])
        ≡ after_batch (after_batches all batches) batch }
{}
