// Pages through the check.
use book::{PageFault, Refusal};
use page::check;
use samples::{SMALL_FARM, patched};

// The page through the check, and what came of it.
pub(crate) fn tell(rt: &HostRuntime, name: &str, page: &[u8]) -> anyhow::Result<()> {
    let length = page.len();
    println!(rt; "{name} ({length} bytes)")?;
    match check(page) {
        Ok((materials, units)) => println!(rt;
            "  accepted: a page of {materials} materials and {units} units"
        )?,
        Err(fault) => tell_fault(rt, fault)?,
    }
    Ok(())
}

// Where a page is at fault.
fn tell_fault(rt: &HostRuntime, fault: PageFault) -> anyhow::Result<()> {
    let refusal = Refusal::BadPage(fault);
    let PageFault { line, column } = fault;
    if column == 0 {
        println!(rt; "  refused with {refusal}: line {line} is cut short, or should not be there")?;
    } else {
        println!(rt; "  refused with {refusal}: line {line}, the field at column {column}")?;
    }
    Ok(())
}

// The small farm's page with other bytes from `at` on, through the check.
fn tell_patched(rt: &HostRuntime, name: &str, at: usize, patch: &[u8]) -> anyhow::Result<()> {
    let page = patched(rt.alloc(), SMALL_FARM, at, patch)?;
    tell(rt, name, page.as_slice())
}

// The small farm's page, and damaged ones.
pub(crate) fn check_pages(rt: &HostRuntime) -> anyhow::Result<()> {
    tell(rt, "The small farm", SMALL_FARM)?;
    tell(rt, "No page at all", b"")?;
    tell_patched(rt, "The small farm, material 2 numbered 02", 19, b"   02")?;
    tell_patched(rt, "The small farm, unit 1 withheld", 39, b"W")?;
    tell_patched(
        rt,
        "The small farm, unit 1 making 3 and then 1",
        85,
        b"    3    1",
    )?;
    tell_patched(rt, "The small farm, one unit more promised", 5, b"    3")?;
    tell_patched(rt, "The small farm, with a byte after its end", 213, b"\n")
}
