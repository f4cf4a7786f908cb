//! A program in which every production stands: its fronts, and texts in which one word of it was left out, doubled or
//! replaced, with the place at which each stops being a program, worked out by hand.

use crate::parses::answer;
use std::alloc::{AllocError, Global};
use std::test::Fail;

/// The program; one blank stands between two words.
const PROGRAM: &str =
    "proc f ( a : int , b : real ) returns ( r : t ) var u : int ; begin end proc g ( ) returns ( ) \
    begin end var x : int , y : int ; begin skip ; halt ; fail ; assume not x == 1 and x != y or x \
    < y ; x = - x + y - 2 * ( x / 3 ) % 4 ; x = f ( x , y ) ; ( x , y ) = f ( x ) ; ( ) = g ( ) ; \
    if x <= 1 then x = random ; else skip ; endif ; if true then endif while x > 1 do x = brandom ; \
    done ; while false do done assume x >= y ; end";

/// A word of the program by its number, what stands in its place, and the number of the word at which the text that
/// comes of it goes wrong.
const EDITS: [(usize, &str, usize); 50] = [
    (1, "", 1),
    (2, "", 2),
    (4, "", 4),
    (6, "", 6),
    (10, "", 10),
    (11, "", 11),
    (21, "", 21),
    (22, "", 22),
    (23, "", 23),
    (31, "", 31),
    (33, "", 33),
    (44, "", 44),
    (49, "", 49),
    (51, "", 51),
    (52, "", 52),
    (64, "", 64),
    (76, "", 78),
    (72, "", 75),
    (82, "", 84),
    (85, "", 85),
    (94, "", 94),
    (111, "", 111),
    (119, "", 119),
    (134, "", 134),
    (145, "", 145),
    (0, "proc proc", 1),
    (6, ", ,", 7),
    (44, "; ;", 45),
    (67, "+ +", 68),
    (60, "< <", 61),
    (104, "( (", 105),
    (116, "else else", 117),
    (119, "endif endif", 120),
    (120, "; ;", 121),
    (98, ") )", 99),
    (145, "end end", 146),
    (5, "7", 5),
    (15, "begin", 15),
    (52, "=", 52),
    (58, "<", 58),
    (54, "==", 54),
    (82, "7", 83),
    (84, "7", 84),
    (95, "7", 95),
    (111, "do", 111),
    (119, "done", 119),
    (134, "endif", 134),
    (114, "int", 114),
    (62, ")", 62),
    (24, "begin", 26),
];

/// The program with other words in the place of one, each word with a blank behind it.
fn edited(alloc: Global, place: usize, words: &str) -> Result<Vec<u8>, AllocError> {
    let mut text = Vec::new(alloc);
    for (number, word) in PROGRAM.split(' ').enumerate() {
        let part = if number == place { words } else { word };
        if !part.is_empty() {
            text.extend_from_slice(part.as_bytes())?;
            text.extend_from_slice(b" ")?;
        }
    }
    Ok(text)
}

/// Where the word with a number starts; the end of the text, where there are fewer words.
fn start_of(text: &[u8], number: usize) -> usize {
    let mut left = number;
    for (offset, byte) in text.iter().enumerate() {
        if left == 0 {
            return offset;
        }
        if *byte == b' ' {
            left -= 1;
        }
    }
    text.len()
}

#[test]
fn fronts_go_wrong_at_their_end(rt: HostRuntime) -> Result<(), Fail> {
    for (offset, byte) in PROGRAM.as_bytes().iter().enumerate() {
        if *byte == b' ' {
            let given = answer(rt.alloc(), &PROGRAM.as_bytes()[..offset])?;
            let want = format!(in rt.alloc(); "syntax error at byte {offset}")?;
            assert_eq!(&rt; given.as_str(), want.as_str());
        }
    }
    let given = answer(rt.alloc(), PROGRAM.as_bytes())?;
    assert_eq!(&rt; given.as_str(), "37 expressions, 16 statements");
    Ok(())
}

#[test]
fn edits_go_wrong_at_their_place(rt: HostRuntime) -> Result<(), Fail> {
    for &(place, words, number) in &EDITS {
        let text = edited(rt.alloc(), place, words)?;
        let given = answer(rt.alloc(), &text)?;
        let want = format!(in rt.alloc(); "syntax error at byte {}", start_of(&text, number))?;
        assert_eq!(&rt;
            given.as_str(),
            want.as_str(),
            "with {words} at word {place}"
        );
    }
    Ok(())
}
