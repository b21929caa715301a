// What a plan file that was checked holds.
ghost use Rattle.std.specs.Prelude.{◌≡◌, ◌+◌, ◌*◌, ◌≤◌, [], ◌∷◌, map, length, take, drop};
ghost use Rattle.fields.specs.Laid.{laid};
ghost use Rattle.times.specs.Coding.{width_of};
ghost use Rattle.heads.specs.Heads.{IsHead, outline, outline_of};
ghost use Rattle.plans.specs.Views.{limit_of};
ghost use Rattle.plan_records.specs.Records.{limit_in, part_from};

use files::headers::PlanHeader;
use heads::Head;
use plan_records::limit_width;
use plans::Limit;
use times::Time;

// The head of a plan whose tests lie at a place.
pub(crate) fn head_at(file: &[u8], header: &PlanHeader, at: usize) -> Head
    requires { (at + header.now.tests ≤ length file.now) × (IsHead (outline header.now.points (part_from file.now at header.now.tests) header.now.round header.now.delay)) }
    ensures { outline_of result ≡ outline header.now.points (part_from file.now at header.now.tests) header.now.round header.now.delay }
{
    let end = at + usize::from(header.tests);
    let Ok(head) = Head::new(header.points, &file[at..end], header.round, header.delay) else {
        unreachable()
    };
    head
}

// Stores the first so many limits of a file, which lie one after the other from a place on.
// One function for all that fill an array would be public, and a public call has no `requires`.
pub(crate) fn fill_limits<T: Time>(file: &[u8], at: usize, count: usize, limits: &mut [Limit<T>])
    requires { (count ≤ 65535) × ((count ≤ length limits.old) × (at + (4 + width_of T.Time.kind) * count ≤ length file.now)) }
    ensures front { map (limit_of T.Time.moment) (take count limits.new) ≡ laid count (λ j. limit_in T.Time.kind file.now (at + (4 + width_of T.Time.kind) * j) ∷ []) }
    ensures rest { drop count limits.new ≡ drop count limits.old }
{
    // by index: after a zip with iter_mut a proof knows nothing of the elements
    let parts = file[at..].chunks_exact(limit_width(T::kind()));
    for (j, part) in parts.take(count).enumerate() {
        limits[j] = read_limit(part);
    }
}

// The limit that a part of a file holds.
fn read_limit<T: Time>(part: &[u8]) -> Limit<T>
    requires { length part.now ≡ 4 + width_of T.Time.kind }
    ensures { limit_of T.Time.moment result ≡ limit_in T.Time.kind part.now 0 }
{
    let [from, to, wanted, unwanted, bound @ ..] = part else {
        unreachable()
    };
    let Ok(bound) = T::decode(bound, 0) else {
        unreachable()
    };
    Limit {
        from: *from,
        to: *to,
        wanted: *wanted,
        unwanted: *unwanted,
        bound,
    }
}
