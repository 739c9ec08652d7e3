// The files of `stress` as a library.
// They depend on the source and the refutations.
ghost use Rattle.std.specs.Prelude.{◌≡◌, ◌≤◌, ◌+◌, ◌++◌, ◌∷◌, [], Some, None, map, string_bytes, decimal, OnOk, IfOk};
ghost use Rattle.std.specs.Option.{option_map};
ghost use Rattle.outside.specs.State.{Fetched};
ghost use Rattle.stress_gen.specs.Texts.{refutation_text};
ghost use Rattle.stress_gen.specs.Files.{accepted_text, feeds, files_of, file_among, refutation_files, refutation_lines, refutation_names, stress_files};

use crate::refutations::refutation;
use crate::sources::source;
use crate::templates::push_filled;
use outside::{FetchFault, Library};
use std::alloc::{AllocError, Global};

const DRIVER: &[u8] = b"printer \"smtv2\"\ntransformation \"split_goal_right\"\n";

// How many line feeds bytes have.
fn count_feeds(bytes: &[u8]) -> u64
    ensures { result ≡ feeds bytes.now }
{
    let mut count = 0;
    for byte in bytes {
        if *byte == b'\n' {
            count += 1;
        }
    }
    count
}

// Appends a file.
fn push_file(
    alloc: Global,
    files: &mut Vec<(String, Vec<u8>)>,
    name: &str,
    bytes: Vec<u8>,
) -> Result<(), AllocError>
    ensures { OnOk result (files_of files.new.items
        ≡ files_of files.old.items ++ (name.now, bytes.items) ∷ []) }
{
    let name = String::from_str(alloc, name)?;
    files.push((name, bytes))?;
    Ok(())
}

// Appends the refutation of a part, by its number: how many lines it has.
fn push_refutation(
    alloc: Global,
    files: &mut Vec<(String, Vec<u8>)>,
    part: u64,
) -> Result<u64, AllocError>
    requires { part ≤ 200 }
    ensures files { OnOk result (files_of files.new.items
        ≡ files_of files.old.items ++ (decimal part, refutation_text part) ∷ []) }
    ensures lines { IfOk result (λ n. n ≡ feeds (refutation_text part)) }
{
    let text = refutation(alloc, part)?;
    let lines = count_feeds(&text);
    let name = part.to_string(alloc)?;
    push_file(alloc, files, name.as_str(), text)?;
    Ok(lines)
}

// A number of lines that are held, and more of them.
fn all_lines(before: u64, more: u64) -> Result<u64, AllocError>
    ensures { IfOk result (λ n. n ≡ before + more) }
{
    match before.checked_add(more) {
        Some(all) => Ok(all),
        None => Err(AllocError),
    }
}

// Appends the refutations of so many parts: how many lines they have.
fn push_refutations(
    alloc: Global,
    files: &mut Vec<(String, Vec<u8>)>,
    parts: u64,
) -> Result<u64, AllocError>
    requires { parts ≤ 200 }
    ensures files { OnOk result (files_of files.new.items
        ≡ files_of files.old.items ++ refutation_files parts) }
    ensures lines { IfOk result (λ n. n ≡ refutation_lines parts) }
{
    let mut lines = 0;
    for k in 0..parts {
        let more = push_refutation(alloc, files, k + 1)?;
        lines = all_lines(lines, more)?;
    }
    Ok(lines)
}

/// The names of the refutations of so many parts, 200 at most: their numbers, from 1. Only want of memory refuses.
pub fn refutation_names(alloc: Global, parts: u64) -> Result<Vec<String>, AllocError>
    requires { parts ≤ 200 }
    ensures { IfOk result (λ v. map string_bytes v.items ≡ refutation_names parts) }
{
    let mut names = Vec::new(alloc);
    for k in 0..parts {
        let name = (k + 1).to_string(alloc)?;
        names.push(name)?;
    }
    Ok(names)
}

fn find<'a>(files: &'a [(String, Vec<u8>)], name: &str) -> Option<&'a [u8]>
    ensures { option_map (λ s. s.now) result ≡ file_among (files_of files.now) name.now }
{
    for (its, bytes) in files {
        if its.as_str() == name {
            return Some(bytes.as_slice());
        }
    }
    None
}

/// What is written where so many parts, with so many lines, are lifted. Only want of memory refuses.
pub fn accepted_text(alloc: Global, parts: u64, lines: u64) -> Result<Vec<u8>, AllocError>
    requires { lines ≡ refutation_lines parts }
    ensures { IfOk result (λ v. v.items ≡ accepted_text parts) }
{
    let mut text = Vec::new(alloc);
    push_filled(
        alloc,
        &mut text,
        b"parts %\nlines %\naccepted\n",
        &[parts, lines],
    )?;
    Ok(text)
}

/// The files of `stress`, with how many lines its refutations have. No fetch fails but for want of memory.
#[derive(Drop)]
pub struct StressLibrary {
    alloc: Global,
    files: Vec<(String, Vec<u8>)>,
    lines: u64,
    absents: u64,
}

impl StressLibrary {
    /// The files with so many parts, 1 to 200. Only want of memory refuses.
    pub fn new(alloc: Global, parts: u64) -> Result<StressLibrary, AllocError>
        requires some { 1 ≤ parts }
        requires most { parts ≤ 200 }
        ensures state { IfOk result (λ m. ⟦<StressLibrary as Library>⟧.state m
            ≡ record {
              files = Some (stress_files parts);
              faults = 0;
              absents = 0;
              refused_name = None;
            }) }
        ensures lines { IfOk result (λ m. m.lines ≡ refutation_lines parts) }
    {
        let mut files = Vec::new(alloc);
        push_file(alloc, &mut files, "stress.why", source(alloc, parts)?)?;
        let driver = Vec::from_slice(alloc, DRIVER)?;
        push_file(alloc, &mut files, "plain.drv", driver)?;
        let lines = push_refutations(alloc, &mut files, parts)?;
        Ok(StressLibrary {
            alloc,
            files,
            lines,
            absents: 0,
        })
    }

    /// How many lines the refutations have.
    pub fn lines(&self) -> u64
        ensures { result ≡ self.now.lines }
    {
        self.lines
    }
}

impl Library for StressLibrary {
    ghost state = { λ m. record {
      files = Some (file_among (files_of m.files.items));
      faults = 0;
      absents = m.absents;
      refused_name = None;
    } };

    fn fetch(&mut self, name: &str, most: usize) -> Result<Vec<u8>, FetchFault>
        ensures files { (⟦<StressLibrary as Library>⟧.state self.new).files
            ≡ (⟦<StressLibrary as Library>⟧.state self.old).files }
        ensures answer { Fetched (⟦<StressLibrary as Library>⟧.state self.old) name.now most
            (⟦<StressLibrary as Library>⟧.state self.new) result }
    {
        match find(&self.files, name) {
            Some(bytes) => {
                let front = if most < bytes.len() {
                    &bytes[..most]
                } else {
                    bytes
                };
                Ok(front.to_vec(self.alloc)?)
            }
            None => {
                self.absents = self.absents.saturating_add(1);
                Err(FetchFault::Absent)
            }
        }
    }
}
