// Tests of the crate blocks: files of 0, 1, 12, 13 and 256 clauses, and each refusal at its block.
ghost use Rattle.std.specs.Prelude.{◌≤◌};

use blocks::book::calls::read_blocks;
use books::book::Book;
use syntax::types::{Atom, Literal, Refusal, Term};

// Writes a byte, if there is such a place.
fn put(bytes: &mut [u8], at: usize, value: u8) {
    if at < bytes.len() {
        bytes[at] = value;
    }
}

// Writes the check of a block.
fn seal(bytes: &mut [u8], block: u8) {
    let from = 512 * block as usize;
    let mut sum: u16 = 0;
    for k in 0..510 {
        if from + k < bytes.len() {
            sum = sum.wrapping_add(bytes[from + k] as u16);
        }
    }
    put(bytes, from + 510, (sum % 256) as u8);
    put(bytes, from + 511, (sum / 256 % 256) as u8);
}

// Where clause i begins.
fn place(i: u8) -> usize
    ensures { result ≤ 65535 }
{
    512 * (1 + i as usize / 12) + 4 + 42 * (i as usize % 12)
}

// Writes clause i: that the name i % 32 has property 0.
fn put_clause(bytes: &mut [u8], i: u8) {
    let at = place(i);
    put(bytes, at, 1);
    put(bytes, at + 2, 1);
    put(bytes, at + 3, 1);
    put(bytes, at + 5, i % 32);
}

// Writes the letters, the kind and the count of a block.
fn put_front(bytes: &mut [u8], block: u8, kind: u8, count: u8) {
    let from = 512 * block as usize;
    put(bytes, from, b'K');
    put(bytes, from + 1, b'B');
    put(bytes, from + 2, kind);
    put(bytes, from + 3, count);
}

// Writes a file with 32 names, one property and n clauses into bytes that are zero.
fn fill(bytes: &mut [u8], n: u16) {
    put_front(bytes, 0, 0, 0);
    put(bytes, 4, 32);
    put(bytes, 5, 1);
    put(bytes, 7, (n % 256) as u8);
    put(bytes, 8, (n / 256 % 256) as u8);
    seal(bytes, 0);
    for i in 0..n {
        put_clause(bytes, (i % 256) as u8);
    }
    let full = (n / 12 % 128) as u8;
    for b in 0..full {
        put_front(bytes, b + 1, 1, 12);
        seal(bytes, b + 1);
    }
    if n % 12 > 0 {
        put_front(bytes, full + 1, 1, (n % 12) as u8);
        seal(bytes, full + 1);
    }
}

// The refusal's number and block; 0 where the bytes are accepted.
fn refusal(bytes: &[u8]) -> (u8, usize) {
    match read_blocks(bytes) {
        Ok(_) => (0, 0),
        Err(Refusal::BlockCheck(b)) => (12, b),
        Err(Refusal::BlockLayout(b)) => (13, b),
        Err(e) => (e.cause(), 0),
    }
}

// Whether the bytes are read as n clauses of which clause i is the one that was written.
fn reads(bytes: &[u8], n: usize, i: u8) -> bool {
    match read_blocks(bytes) {
        Ok(book) => {
            let l = Literal {
                sign: true,
                atom: Atom::Prop(0, Term::Name(i % 32)),
            };
            let i = i as usize;
            book.len() == n
                && book.counts().names() == 32
                && book.literals(i) == Some(1)
                && book.literal(i, 0) == Some(l)
                && book.literal(i, 1) == None
        }
        Err(_) => false,
    }
}

#[test]
fn whole_files(rt: HostRuntime) {
    let mut bytes = [0; 512];
    fill(&mut bytes, 0);
    assert_eq!(rt; refusal(&bytes), (0, 0));
    let mut bytes = [0; 1024];
    fill(&mut bytes, 1);
    assert!(rt; reads(&bytes, 1, 0));
    let mut bytes = [0; 1024];
    fill(&mut bytes, 12);
    assert!(rt; reads(&bytes, 12, 11));
    let mut bytes = [0; 1536];
    fill(&mut bytes, 13);
    assert!(rt; reads(&bytes, 13, 12));
    assert!(rt; !reads(&bytes, 13, 13));
}

#[test]
fn largest_file(rt: HostRuntime) {
    let mut bytes = [0; 11776];
    fill(&mut bytes, 256);
    assert!(rt; reads(&bytes, 256, 0));
    assert!(rt; reads(&bytes, 256, 255));
}

#[test]
fn wrong_length(rt: HostRuntime) {
    assert_eq!(rt; refusal(&[]), (11, 0));
    assert_eq!(rt; refusal(&[0; 511]), (11, 0));
}

#[test]
fn wrong_checks(rt: HostRuntime) {
    let mut bytes = [0; 1536];
    fill(&mut bytes, 13);
    bytes[1030] = 7;
    assert_eq!(rt; refusal(&bytes), (12, 2));
    bytes[600] = 7;
    assert_eq!(rt; refusal(&bytes), (12, 1));
    bytes[0] = 0;
    assert_eq!(rt; refusal(&bytes), (12, 0));
}

// A file of 13 clauses with another byte at a place, its checks right.
fn changed(at: u16, value: u8) -> (u8, usize) {
    let mut bytes = [0; 1536];
    fill(&mut bytes, 13);
    put(&mut bytes, at as usize, value);
    seal(&mut bytes, 0);
    seal(&mut bytes, 1);
    seal(&mut bytes, 2);
    refusal(&bytes)
}

#[test]
fn wrong_layouts(rt: HostRuntime) {
    assert_eq!(rt; changed(0, b'k'), (13, 0));
    assert_eq!(rt; changed(3, 1), (13, 0));
    assert_eq!(rt; changed(4, 33), (13, 0));
    assert_eq!(rt; changed(7, 12), (13, 0));
    assert_eq!(rt; changed(9, 1), (13, 0));
    assert_eq!(rt; changed(515, 11), (13, 1));
    assert_eq!(rt; changed(517, 1), (13, 1));
    assert_eq!(rt; changed(523, 1), (13, 1));
    assert_eq!(rt; changed(1026, 0), (13, 2));
    assert_eq!(rt; changed(1027, 2), (13, 2));
    assert_eq!(rt; changed(1028, 0), (13, 2));
    assert_eq!(rt; changed(1033, 36), (13, 2));
}
