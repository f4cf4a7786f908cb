//! The words of matrices and values, row after row.
use dec_oct::DecOct;
use half_matrix::HalfBuf;
use std::alloc::{AllocError, Global};
use std::process::Abort;

/// The words of a matrix.
pub(crate) fn matrix_words(alloc: Global, m: &HalfBuf) -> Result<Vec<i64>, AllocError> {
    let size = 2 * m.vars();
    let mut words = Vec::new(alloc);
    'rows: for i in 0..size {
        'columns: for j in 0..size {
            words.push(m.get(i, j))?;
        }
    }
    Ok(words)
}

/// The words of a value; none for Bottom.
pub(crate) fn value_words(alloc: Global, v: &DecOct) -> Result<Vec<i64>, AllocError> {
    v.known();
    let mut words = Vec::new(alloc);
    if v.partition().is_some() {
        let size = 2 * v.dims();
        'rows: for i in 0..size {
            'columns: for j in 0..size {
                words.push(v.entry(i, j))?;
            }
        }
    }
    Ok(words)
}

/// Asserts that words are the expected ones, place by place.
pub(crate) fn expect_words(rt: &impl Abort, found: &[i64], expected: &[i64], name: &str) {
    assert_eq!(rt; found.len(), expected.len(), "the words of {name}");
    for k in 0..found.len() {
        assert_eq!(rt; found[k], expected[k], "word {k} of {name}");
    }
}
