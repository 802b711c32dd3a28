use std::alloc::Global;
use xa_outside::{MemFolder, MemSink, MemSource};

/// A program that is tried: it does what words say, and answers a status.
pub trait Runs {
    fn run(
        &mut self,
        alloc: Global,
        words: &[String],
        folder: &mut MemFolder,
        input: &mut MemSource,
        out: &mut MemSink,
        err: &mut MemSink,
    ) -> u8;
}
