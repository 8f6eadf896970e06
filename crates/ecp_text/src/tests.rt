use crate::LineBuffer;

#[test]
fn writes_words_numbers_and_lines(rt: HostRuntime) {
    let mut line = LineBuffer::new();
    line.put(b"line");
    line.put_number(7);
    line.put_word(b"of");
    line.put_numbers(&[0, 4_294_967_295]);
    line.end_line();
    assert_eq!(rt; line.bytes(), b"line 7 of 0 4294967295\n".as_slice());

    line.clear();
    line.put_digits(12);
    let mut out = [b'x'; 512];
    let len = line.copy_to(&mut out);
    assert_eq!(rt; len, 2);
    assert_eq!(rt; &out[..3], b"12x".as_slice());
}
