//! A small program, written out by hand.
use crate::generate;
use std::test::Fail;

#[test]
fn two_groups(rt: HostRuntime) -> Result<(), Fail> {
    let text = generate(rt.alloc(), 2)?;
    let lines = "\
var a0:int, b0:int, c0:int, a1:int, b1:int, c1:int;
begin
b0 = a0 + 1;
c0 = b0 + 1;
b1 = a1 + 1;
c1 = b1 + 1;
while random do
a0 = a0 + 1;
b0 = b0 + 1;
c0 = c0 + 1;
a1 = a1 + 1;
b1 = b1 + 1;
c1 = c1 + 1;
done;
end
";
    assert_eq!(rt; text.as_slice(), lines.as_bytes());
    Ok(())
}

#[test]
fn numbers_of_two_digits(rt: HostRuntime) -> Result<(), Fail> {
    let text = generate(rt.alloc(), 42)?;
    let bytes = text.as_slice();
    let lines = bytes.iter().filter(|byte| **byte == b'\n').count();
    assert_eq!(rt; lines, 5 * 42 + 5);
    assert!(rt; bytes.ends_with(b"c41 = c41 + 1;\ndone;\nend\n"));
    Ok(())
}
