//! The premises of an opening in plain words (docs/MODEL.md, "The host and its runs").
ghost use Rattle.std.specs.Prelude.{◌≡◌, ℕ, true, List};
ghost use Rattle.label_store.specs.Records.{AreUnhurt};
ghost use Rattle.txg_history.specs.Events.{Known};
ghost use Rattle.txg_history.specs.Openings.{IsReadWhole};
ghost use Rattle.txg_history.specs.Pages.{Codec};
ghost use Rattle.txg_history.specs.Premises.{AreOurs, HasNoStray, HasSoundLabels, Premises};
ghost use Rattle.txg_history.specs.Records.{Rec, IsIn};
ghost use Rattle.pool_runs.specs.Acts.{Act};
ghost use Rattle.pool_runs.specs.Lines.{Entry};
ghost use Rattle.pool_runs.specs.Moments.{Moment, pool_at, past_at};
ghost use Rattle.pool_runs.specs.Pasts.{Past, pool_of, IsAllowed};
ghost use Rattle.pool_runs.specs.PlainPremises.{
  KeepsUp,
  WasPassedBy,
  FindsNonePassed,
  ReadsNewest,
  MeetsPremises,
};

/// What a user can check before an opening gives its premises, over any number of runs, whose
/// devices may have other numbers in each. It computes nothing: its clauses are the law.
///
/// `labels`: a member that keeps up has sound labels, where none of their sectors is damaged and
/// each was read. To keep up it took part in the round that was acknowledged last, in this run or
/// an earlier one, and kept the rule by numbers since. `missed`: a record counts as missed only
/// where an opening of some run read a lower one while it was live. `strays`: there is no stray
/// where no other pool's record of the name is found, and each record that is found and was so
/// passed by is below the acknowledged one, was acknowledged, or a live one is the very same.
/// `newest`: and none where no other pool's record of the name is found, and each opening so far
/// read a record that was not below any live one. `premises`: all of this together, with no clash
/// over the byte strings that are there. `moments`: so it is at each moment of a run, by the pool's
/// past there.
pub fn premises_in_plain_words()
    ensures labels { (c : Codec) (past : Past) (known : Known) (d : ℕ)
        → IsAllowed c past → (pool_of past).member d ≡ true → KeepsUp past d
        → AreUnhurt ((pool_of past).size d) ((pool_of past).sectors d)
        → IsReadWhole ((pool_of past).size d) (known d)
        → HasSoundLabels (pool_of past) known d }
    ensures missed { (past : Past) (r : Rec) → IsIn r (pool_of past).missed → WasPassedBy past r }
    ensures strays { (c : Codec) (past : Past) (known : Known)
        → IsAllowed c past → AreOurs c (pool_of past) known → FindsNonePassed c past known
        → HasNoStray c.head_of (pool_of past) known }
    ensures newest { (c : Codec) (past : Past) (known : Known)
        → AreOurs c (pool_of past) known → ReadsNewest past
        → HasNoStray c.head_of (pool_of past) known }
    ensures premises { (c : Codec) (past : Past) (known : Known)
        → IsAllowed c past → MeetsPremises c past known
        → Premises c.head_of (pool_of past) known }
    ensures moments { (c : Codec) (past : Past) (acts : List Act) (entries : List Entry) (known : Known)
        → (m : Moment c past acts entries) → IsAllowed c (past_at m)
        → MeetsPremises c (past_at m) known
        → Premises c.head_of (pool_at m) known }
{}
