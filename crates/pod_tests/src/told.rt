//! A search among two lists tells how far it is.
use spa_meet_commands::answer::Failure;
use spa_meet_commands::lists::of_lists;
use spa_meet_commands::pair::Work;
use spa_meet_commands::progress::Progress;
use std::alloc::AllocError;

/// What was told: how often, and last of how many objects.
#[derive(Drop)]
struct Told {
    times: usize,
    objects: usize,
}

impl Progress for Told {
    fn tell(&mut self, objects: usize) {
        self.times = self.times.wrapping_add(1);
        self.objects = objects;
    }
}

/// Objects without properties, of the types 5, 6 and 7.
const THREE: [u8; 48] = [
    8, 0, 0, 0, 15, 0, 0, 0, 5, 0, 0, 0, 1, 0, 0, 0, 8, 0, 0, 0, 15, 0, 0, 0, 6, 0, 0, 0, 2, 0, 0,
    0, 8, 0, 0, 0, 15, 0, 0, 0, 7, 0, 0, 0, 3, 0, 0, 0,
];

/// What is told while one of the three is sought that agrees with one of this list.
fn told_of(rt: &HostRuntime, theirs: &[u8]) -> Result<Told, AllocError> {
    let mut told = Told {
        times: 0,
        objects: 0,
    };
    let found = of_lists(rt.alloc(), Work::Filter, &THREE, theirs, &mut told);
    if let Err(Failure::OutOfMemory) = found {
        return Err(AllocError);
    }
    Ok(told)
}

#[test]
fn a_search_tells_of_each_object_that_it_tries(rt: HostRuntime) -> Result<(), AllocError> {
    let told = told_of(&rt, &THREE[32..])?;
    assert_eq!(rt; told.times, 3);
    assert_eq!(rt; told.objects, 3);
    // The first agrees.
    let told = told_of(&rt, &THREE)?;
    assert_eq!(rt; told.times, 1);
    Ok(())
}
