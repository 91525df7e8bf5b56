// One page after another through the check.
use crate::table::Damaged;
use anyhow::bail;
use book::PageFault;
use page::check;
use samples::{front, patched};

// The pages that were tried so far.
#[derive(Drop)]
pub struct Trial<'a> {
    pub rt: &'a HostRuntime,
    pub count: u32,
}

impl Trial<'_> {
    // The page should be accepted with these counts of materials and units.
    pub(crate) fn accepted(
        &mut self,
        name: &str,
        page: &[u8],
        counts: (u16, u16),
    ) -> anyhow::Result<()> {
        self.expect(name, page, Ok(counts))?;
        let (materials, units) = counts;
        println!(self.rt; "{name}: {materials} materials, {units} units")?;
        Ok(())
    }

    // The page should be refused with this fault.
    pub(crate) fn refused(
        &mut self,
        name: &str,
        page: &[u8],
        fault: PageFault,
    ) -> anyhow::Result<()> {
        self.expect(name, page, Err(fault))?;
        let PageFault { line, column } = fault;
        println!(self.rt; "{name}: line {line}, column {column}")?;
        Ok(())
    }

    // The page, damaged as each row of the table says, should be refused as the row says.
    pub(crate) fn damaged(&mut self, page: &[u8], table: &[Damaged]) -> anyhow::Result<()> {
        for row in table {
            match *row {
                Damaged::Patched(name, at, patch, line, column) => {
                    let bytes = patched(self.rt.alloc(), page, at, patch)?;
                    self.refused(name, bytes.as_slice(), PageFault { line, column })?;
                }
                Damaged::Cut(name, count, line, column) => {
                    self.refused(name, front(page, count), PageFault { line, column })?;
                }
            }
        }
        Ok(())
    }

    // The check of the page should answer this; else the program ends with an error.
    fn expect(
        &mut self,
        name: &str,
        page: &[u8],
        answer: Result<(u16, u16), PageFault>,
    ) -> anyhow::Result<()> {
        let given = check(page);
        if given != answer {
            eprintln!(self.rt; "{name}: answered {given:?}")?;
            bail!("a page was answered otherwise than by hand");
        }
        self.count = self.count.saturating_add(1);
        Ok(())
    }
}
