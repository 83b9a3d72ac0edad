// The tally carried over a list of jobs of two suppliers: of 0 one that is accepted, of 15 one that is refused and one that is
// accepted, one with a supplier number that there is not, of 0 no byte and the first once more.
use crate::tables;
use job::{Counters, Tally, feedcheck_job};
use std::rt::Files;
use std::{fs, io};

// The tally after one more job.
fn after(tally: Tally, supplier: u8, job: &[u8]) -> Tally {
    let mut table = tables::lent();
    feedcheck_job(job, &mut table, supplier, tally).tally
}

fn after_list<'a>(job: &'a [u8], cut: &'a [u8]) -> Tally {
    let jobs: [(u8, &'a [u8]); 6] = [
        (0, job),
        (15, cut),
        (15, job),
        (16, job),
        (0, b""),
        (0, job),
    ];
    jobs.iter().fold(Tally::fresh(), |tally, (supplier, job)| {
        after(tally, *supplier, job)
    })
}

// The list over the job of a file, and over its first bytes in another. Prints each supplier's counts.
pub fn run(rt: &(impl Files + AllocGlobal + Print), path: &str, cut: &str) -> io::Result<()> {
    let job = fs::read(rt, path)?;
    let part = fs::read(rt, cut)?;
    let tally = after_list(job.as_slice(), part.as_slice());
    for (supplier, Counters { accepted, refused }) in tally.pairs.iter().enumerate() {
        println!(rt;
            "a list of jobs, supplier {supplier}: {accepted} accepted, {refused} refused"
        )?;
    }
    Ok(())
}
