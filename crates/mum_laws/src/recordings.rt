//! What the transcript of a recording is. These functions do nothing: each contract is a theorem.

ghost use Rattle.std.specs.Prelude.{◌≡◌, ◌≤◌, ◌⊎◌, ◌++◌, ℕ, List, Option, [], length};
ghost use Rattle.std.specs.List.{AllByRecursion, slice_split};
ghost use Rattle.mum_record.specs.Head.{head_lines, recording_line};
ghost use Rattle.mum_record.specs.Lines.{is_line_feed};
ghost use Rattle.mum_server.specs.Replay.{replayed};
ghost use Rattle.mum_laws.specs.Recordings.{IsHead, IsRunBehind, IsTranscript, StopsEarly};

/// The transcript of a recording is the lines of a run: of every input, `replayed` is the lines of steps, in order, each of
/// them said by its line and allowed where it comes, from the opening of its configuration. It ends as finished exactly
/// where the last of them is `end` and nothing follows, and with `IllegalStep` exactly where a line says a step that is not
/// allowed, with its numbers for the core after the steps before it.
pub fn transcripts_are_runs()
    // Of every input: the steps of its run, or it stops at a line of its head.
    ensures every { (bytes : List ℕ) → StopsEarly (replayed bytes) ⊎ IsTranscript bytes (replayed bytes) }
    // After a head whose lines are not too long it is always a run.
    ensures behind_a_head { (limits : Option (ℕ × ℕ)) (workers : ℕ) (document bytes : List ℕ)
        (pieces : List (List ℕ)) → IsHead limits workers document → (pieces ≡ [] → ⊥) →
        AllByRecursion (λ line. length line ≤ 131200) (head_lines recording_line workers limits document) →
        slice_split is_line_feed bytes ≡ head_lines recording_line workers limits document ++ pieces →
        IsRunBehind limits workers document pieces (replayed bytes) }
{}
