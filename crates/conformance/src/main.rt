// Runs the library's calls on the vectors of the folder that it is started in, and compares every field of each answer.

#![tactic(auto)]

mod answers;
mod buffers;
mod builds;
mod checks;
mod costliests;
mod costs;
mod files;
mod in_files;
mod jobs;
mod listings;
mod lists;
mod outputs;
mod parts;
mod penalties;
mod plains;
mod registers;
mod schemes;
mod searches;
mod tables;

use console::parts::{certificate_of, scheme_of};
use console::{MAX_VISITS, cheapest_lines, lines_of, supplier_lines};
use files::{run, run_call};
use listing::{feedcheck_listing, feedcheck_supplier_listing};
use std::io;

fn main(rt: HostRuntime) -> io::Result<()> {
    let rt = &rt;
    run_call(rt, "register", "register.txt", registers::agrees)?;
    run_call(rt, "scheme", "scheme.txt", schemes::agrees)?;
    run_call(rt, "build", "build.txt", builds::agrees)?;
    run_call(rt, "cost", "cost.txt", costs::agrees)?;
    run_call(rt, "penalty", "penalty.txt", penalties::agrees)?;
    run_call(rt, "check", "check.txt", checks::agrees)?;
    run_call(rt, "plain", "plain.txt", plains::agrees)?;
    run_call(rt, "job", "job.txt", jobs::agrees)?;
    run_call(rt, "listing", "listing.txt", |fields| {
        listings::agrees(fields, |job, table, buffer| {
            feedcheck_listing(job, table, buffer)
        })
    })?;
    run_call(rt, "supplier listing", "supplier.txt", |fields| {
        listings::agrees(fields, |job, table, buffer| {
            feedcheck_supplier_listing(job, table, buffer)
        })
    })?;
    run_call(rt, "search", "search.txt", searches::agrees)?;
    run_call(rt, "costliest", "costliest.txt", costliests::agrees)?;
    run_call(rt, "feedcheck", "feedcheck.txt", outputs::agrees)?;
    run_call(rt, "build_scheme", "build_scheme.txt", |fields| {
        parts::agrees(fields, |register, text| scheme_of(register, text))
    })?;
    run_call(rt, "own_certificate", "own_certificate.txt", |fields| {
        parts::agrees(fields, |parts, text| certificate_of(parts, text))
    })?;
    run(rt, "examples", "examples.txt", |line| {
        in_files::agrees(rt, line, |job, text| lines_of(job, text).count)
    })?;
    run(rt, "suppliers", "suppliers.txt", |line| {
        in_files::agrees(rt, line, |job, text| lines_of(job, text).count)
    })?;
    run(rt, "views", "views.txt", |line| {
        in_files::agrees(rt, line, |job, text| supplier_lines(job, text))
    })?;
    run(rt, "cheapest", "cheapest.txt", |line| {
        in_files::agrees(rt, line, |register, text| {
            cheapest_lines(register, MAX_VISITS, text)
        })
    })?;
    lists::run(
        rt,
        "examples/labs05.csdp.job",
        "examples/labs05.csdp.bad-t-up.job",
    )
}
