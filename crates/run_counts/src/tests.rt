//! What is counted of a run with two workers.
ghost use Rattle.std.specs.Prelude.{◌≡◌, ◌+◌};

use crate::counts::Counts;
use run_names::Run;
use std::marker::Brand;
use std::sync::ledger::Blank;
use std::test::*;

// What is told of a run of ten events at most.
#[derive(Clone, Copy)]
struct Told {
    before: u32,
    unended: u32,
    paces: (u64, u64, u64),
    first: (u64, u64),
    second: (u64, u64),
    jobs: u32,
}

// The root makes a child at the first worker and goes to wait there. The second worker has the child make an event and end,
// and takes the root, which waits no more.
fn two_workers<J: Run>(blanks: (Blank, Blank, Blank)) -> Told
    requires names { (blanks.0.name ≡ J.given) × (blanks.1.name ≡ J.taken) × (blanks.2.name ≡ J.paces) }
    requires parts { (blanks.0.parts ≡ J.hands) × (blanks.1.parts ≡ J.hands) × (blanks.2.parts ≡ J.places) }
    requires run { (J.limits.events ≡ 10) × (J.hands ≡ 3) × (J.places ≡ 13) }
{
    let (given, taken, paces) = blanks;
    let (mut counts, mut root) = Counts::<J>::open(given, taken, paces);
    let mut first = counts.hand();
    let mut second = counts.hand();
    let mut child = counts.fork(&mut first, &mut root);
    let before = counts.unended();
    counts.wait(&mut first);
    counts.go_on(&mut second, &mut child);
    let child_pace = child.count();
    counts.end(&mut second, child);
    counts.wake(&mut second, &mut root);
    let waited_pace = root.count();
    counts.go_on(&mut second, &mut root);
    let told = Told {
        before,
        unended: counts.unended(),
        paces: (child_pace, waited_pace, root.count()),
        first: (first.given(), first.taken()),
        second: (second.given(), second.taken()),
        jobs: 0,
    };
    counts.gather(first);
    counts.gather(second);
    Told {
        jobs: counts.finish(),
        ..told
    }
}

#[test]
fn no_job_is_lost(rt: HostRuntime) {
    let told = two_workers::<Brand>((Blank::new(3), Blank::new(3), Blank::new(13)));
    assert_eq!(rt; told.before, 2);
    assert_eq!(rt; told.unended, 1);
    assert_eq!(rt; told.paces, (1, 0, 1));
    assert_eq!(rt; told.first, (2, 2));
    assert_eq!(rt; told.second, (3, 3));
    assert_eq!(rt; told.jobs, 1);
}
