// Each call once with ample memory, and calls that fail by their numbers.
// They depend on the library and the sinks; nothing depends on them.
use outside::{Boxed, FetchFault, Library, MemoryLibrary, MemorySink, PutFault, Seq, Sink, Text};
use std::alloc::Global;
use std::process::Abort;

const MEMORY: &str = "out of memory";

// Some numbers; those after the first are put at the end together.
fn numbers(rt: &impl Abort, alloc: Global, first: u32, more: &[u32]) -> Seq<u32> {
    let mut items = Seq::new(alloc);
    items.push(first).expect(rt, MEMORY);
    let more = Seq::from_slice(alloc, more).expect(rt, MEMORY);
    items.append(more).expect(rt, MEMORY);
    items
}

#[test]
fn a_new_sequence_has_no_item(rt: HostRuntime) {
    let items: Seq<u32> = Seq::new(rt.alloc());
    assert!(rt; items.is_empty());
}

#[test]
fn items_are_read_and_set(rt: HostRuntime) {
    let mut items = numbers(&rt, rt.alloc(), 3, &[5, 8]);
    assert!(rt; items.len() == 3);
    items.set(0, 2);
    assert!(rt; items.as_slice() == [2, 5, 8].as_slice());
    assert!(rt; items.get(2).copied() == Some(8));
    assert!(rt; items.get(3).copied() == None);
    items.as_mut_slice()[1] = 6;
    assert!(rt; items.as_slice() == [2, 6, 8].as_slice());
}

fn take_two(rt: &impl Abort, items: &mut Seq<u32>) {
    assert!(rt; items.len() == 3);
    assert!(rt; items.remove(1) == 6);
    assert!(rt; items.pop() == Some(8));
    assert!(rt; items.len() == 1);
}

#[test]
fn a_copy_keeps_what_is_taken_from_the_first(rt: HostRuntime) {
    let mut items = numbers(&rt, rt.alloc(), 2, &[6, 8]);
    let copy = items.clone().expect(&rt, MEMORY);
    take_two(&rt, &mut items);
    assert!(rt; copy.as_slice() == [2, 6, 8].as_slice());
    let given_back = copy.into_vec();
    assert!(rt; given_back.as_slice() == [2, 6, 8].as_slice());
}

#[test]
fn a_box_holds_what_it_is_given(rt: HostRuntime) {
    let mut boxed = Boxed::new(rt.alloc(), 7u64).expect(&rt, MEMORY);
    assert!(rt; *boxed.get() == 7);
    *boxed.get_mut() = 9;
    assert!(rt; boxed.into_inner() == 9);
}

// Whether a text and its copy are the word.
fn is_copied(rt: &impl Abort, text: &Text) -> bool {
    let copy = text.clone().expect(rt, MEMORY);
    copy.as_slice() == b"goal".as_slice()
}

#[test]
fn a_text_holds_what_it_is_given(rt: HostRuntime) {
    let text = Text::from_slice(rt.alloc(), b"goal").expect(&rt, MEMORY);
    assert!(rt; is_copied(&rt, &text));
    let bytes = text.as_slice().to_vec(rt.alloc()).expect(&rt, MEMORY);
    let vector = Text::from_vec(bytes);
    assert!(rt; vector.as_slice() == b"goal".as_slice());
    let given_back = vector.into_vec();
    assert!(rt; given_back.as_slice() == b"goal".as_slice());
}

// A file of the name `a`.
fn file(rt: &impl Abort, alloc: Global, bytes: &[u8]) -> (String, Vec<u8>) {
    let name = String::from_str(alloc, "a").expect(rt, MEMORY);
    let bytes = Vec::from_slice(alloc, bytes).expect(rt, MEMORY);
    (name, bytes)
}

// A library of two files of one name, which fails at its call 2.
fn library(rt: &impl Abort, alloc: Global) -> MemoryLibrary {
    let mut files = Vec::new(alloc);
    files.push(file(rt, alloc, b"first")).expect(rt, MEMORY);
    files.push(file(rt, alloc, b"second")).expect(rt, MEMORY);
    let failing = Vec::from_slice(alloc, &[2]).expect(rt, MEMORY);
    MemoryLibrary::new(alloc, files, failing)
}

// The name and the most bytes of each call, in order, and its answer.
static FETCHES: [(&str, usize, Result<&[u8], FetchFault>); 5] = [
    ("a", 9, Ok(b"first")),
    ("a", 3, Ok(b"fir")),
    ("a", 3, Err(FetchFault::Failed)),
    ("b", 3, Err(FetchFault::Absent)),
    ("a", 0, Ok(b"")),
];

fn is_fetched(found: &Result<Vec<u8>, FetchFault>, wanted: Result<&[u8], FetchFault>) -> bool {
    match (found, wanted) {
        (Ok(bytes), Ok(text)) => bytes.as_slice() == text,
        (Err(FetchFault::Absent), Err(FetchFault::Absent)) => true,
        (Err(FetchFault::Failed), Err(FetchFault::Failed)) => true,
        _ => false,
    }
}

#[test]
fn a_library_gives_fronts_and_refuses_by_number(rt: HostRuntime) {
    let mut library = library(&rt, rt.alloc());
    for (name, most, wanted) in FETCHES {
        assert!(rt; is_fetched(&library.fetch(name, most), wanted));
    }
}

// What each call gives, and its answer.
static PUTS: [(&[u8], Option<PutFault>); 3] = [
    (b"abc", None),
    (b"def", Some(PutFault::Failed)),
    (b"ghi", None),
];

fn is_put(found: Result<(), PutFault>, wanted: Option<PutFault>) -> bool {
    match (found, wanted) {
        (Ok(()), None) => true,
        (Err(PutFault::Failed), Some(PutFault::Failed)) => true,
        _ => false,
    }
}

#[test]
fn a_sink_takes_bytes_and_fails_by_number(rt: HostRuntime) {
    let failing = Vec::from_slice(rt.alloc(), &[(1, 2)]).expect(&rt, MEMORY);
    let mut sink = MemorySink::new(rt.alloc(), failing);
    for (piece, wanted) in PUTS {
        assert!(rt; is_put(sink.put(piece), wanted));
    }
    assert!(rt; sink.written_bytes() == b"abcdeghi".as_slice());
}
