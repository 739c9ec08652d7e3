// What the lines of a driver are read with, and the file that has them.
// They depend on signatures; the steps of the reader and the reader of files depend on them.
use std::alloc::Global;
use tasks::SymbolInfo;

/// What the lines of a driver are read with: the allocator, the symbols and the known theories with their propositions.
#[derive(Clone, Copy)]
pub struct DriverContext<'a> {
    pub alloc: Global,
    pub symbols: &'a [SymbolInfo],
    pub theories: &'a [(String, Vec<String>)],
}

/// A file's number and its text.
#[derive(Clone, Copy)]
pub struct FileText<'a> {
    pub file: usize,
    pub text: &'a [u8],
}
