// What a kind of time answers.
ghost use Rattle.std.specs.Prelude.{◌≡◌, ℤ};
ghost use Rattle.std.specs.Option.{option_map};
ghost use Rattle.refusals.specs.Answers.{answer_of};
ghost use Rattle.times.specs.declared.codings.Kind.{Kind};
ghost use Rattle.times.specs.Coding.{Recoded, coded_bytes, time_at, time_bytes, time_field, time_refusal, version_of, width_of};
ghost use Rattle.times.specs.Moments.{Moment, LastWhole, added, earlier, last_tick, within};

use crate::bytes::Coded;
use crate::codings::Kind;
use crate::counts::Ticks;
use crate::faults::TimeFault;

// A kind of time. Each answer is that of the moment, for every value.
pub trait Time: Copy {
    // The pair of ticks and grains that a value stands for.
    ghost moment: { Self → Moment };

    // Which of the two codings the kind has.
    ghost kind: { Kind };

    fn is_earlier(self, other: Self) -> bool
        ensures { result ≡ earlier (moment self) (moment other) };

    // Is `second` minus `self` at most `bound`?
    fn is_within(self, second: Self, bound: Self) -> bool
        ensures { result ≡ within (moment self) (moment second) (moment bound) };

    // So many whole ticks later, or `None` where that leaves the range of times.
    fn add_ticks(self, ticks: Ticks) -> Option<Self>
        ensures { option_map moment result ≡ added (moment self) ticks.count };

    // The last whole tick that is not later.
    fn last_tick(self) -> i64
        ensures value { result ≡ last_tick (moment self) }
        ensures last { LastWhole (moment self) result };

    // Which coding its times have in files.
    fn kind() -> Kind
        ensures { result ≡ kind };

    // The version of the files whose times are of this kind.
    fn version() -> u16
        ensures { result ≡ version_of kind }
    {
        Self::kind().version()
    }

    // How many bytes a time takes.
    fn width() -> usize
        ensures { result ≡ width_of kind }
    {
        Self::kind().width()
    }

    // The bytes of a time. What they decode to is the same moment.
    fn encode(self) -> Coded
        ensures coded { coded_bytes result ≡ time_bytes kind (moment self) }
        ensures back { time_at kind (coded_bytes result) 0 ≡ moment self };

    // The time of a file whose first byte is at a place.
    fn decode(file: &[u8], at: usize) -> Result<Self, TimeFault>
        ensures { answer_of moment time_refusal result ≡ time_field kind file.now at };

    // Decoding and then coding gives the same bytes.
    ghost recoded: { Recoded kind };
}
