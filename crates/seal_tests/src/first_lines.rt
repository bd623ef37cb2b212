//! The first lines of a connection.

use sealed_line::{Answer, Greeting, Reply};
use std::test::Fail;

#[test]
fn what_is_written_is_read(rt: HostRuntime) -> Result<(), Fail> {
    let greeting = Greeting {
        site: 65_535,
        id: [0xab; 8],
        nonce: [0x01; 16],
    };
    let mut line = Vec::new(rt.alloc());
    greeting.write(&mut line)?;
    assert_eq!(rt;
        line.as_slice(),
        b"key 1 65535 abababababababab 01010101010101010101010101010101".as_slice()
    );
    assert_eq!(rt; Greeting::read(line.as_slice()), Some(greeting));
    assert_eq!(rt; Answer::read(line.as_slice()), None);
    let reply = Reply {
        site: 0,
        nonce: [0xff; 16],
    };
    let answer = Answer::Proved(reply, [0x10; 32]);
    let mut line = Vec::new(rt.alloc());
    answer.write(&mut line)?;
    assert_eq!(rt; Answer::read(line.as_slice()), Some(answer));
    assert_eq!(rt; Greeting::read(line.as_slice()), None);
    let mut line = Vec::new(rt.alloc());
    Answer::NoKey.write(&mut line)?;
    assert_eq!(rt; line.as_slice(), b"no 12 NoKey".as_slice());
    assert_eq!(rt; Answer::read(line.as_slice()), Some(Answer::NoKey));
    Ok(())
}

#[test]
fn other_lines_are_none(rt: HostRuntime) {
    for line in [
        b"".as_slice(),
        b"hello 2",
        b"key 1 2 abababababababab 0101010101010101010101010101010",
        b"key 1 2 abababababababab 010101010101010101010101010101011",
        b"key 1 2 ABABABABABABABAB 01010101010101010101010101010101",
        b"key 1 02 abababababababab 01010101010101010101010101010101",
        b"key 1 +2 abababababababab 01010101010101010101010101010101",
        b"key 1 65536 abababababababab 01010101010101010101010101010101",
        b"key 2 2 abababababababab 01010101010101010101010101010101",
        b"key 1  abababababababab 01010101010101010101010101010101",
        b"key 1 2 abababababababab 01010101010101010101010101010101 ",
    ] {
        assert!(rt; Greeting::read(line).is_none());
        assert!(rt; Answer::read(line).is_none());
    }
}
