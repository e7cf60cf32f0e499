//! The tap of a socket, over memory and over loopback with both of its ends in this process.
use aud_wire::{WireFault, tap_next};
use std::alloc::Global;
use std::io::{Read, Write};
use std::net::{Ipv4Addr, SocketAddr, TcpListener, TcpStream};
use std::test::Fail;
use tungstenite::{Duplex, Message, NoMask, Role, WebSocket};

/// What the server sends after a ping, a pong and bytes: the reply to the session's connection, and its one event.
const SENT: [&str; 2] = [r#"40{"sid":"s1","pid":"P"}"#, r#"42["hi","1-0"]"#];

/// What the tap gives of each message: none of a ping and a pong.
static TAPPED: [Option<&[u8]>; 6] = [
    None,
    None,
    Some(br#"{"b":"AQI=","k":"inb"}"#),
    Some(br#"{"k":"in","t":"40{\"sid\":\"s1\",\"pid\":\"P\"}"}"#),
    Some(br#"{"k":"in","t":"42[\"hi\",\"1-0\"]"}"#),
    Some(br#"{"k":"lost"}"#),
];

/// Sends a ping, a pong, bytes and the texts over this stream, closes, and gives the stream back.
fn sent_over<S: Read + Write + Drop>(alloc: Global, stream: S) -> Result<S, Fail> {
    let mut server = WebSocket::from_raw_socket(alloc, stream, NoMask, Role::Server, None);
    server.send(Message::Ping(bytes::Bytes::from_static(b"1")))?;
    server.send(Message::Pong(bytes::Bytes::from_static(b"2")))?;
    server.send(Message::Binary(bytes::Bytes::from_static(&[1, 2])))?;
    for text in SENT {
        server.send(Message::text(alloc, text)?)?;
    }
    server.close(None)?;
    Ok(server.into_inner())
}

/// Whether the tap of the client's end over this stream gives what it has to, message after message.
fn is_tapped<S: Read + Write + Drop>(alloc: Global, stream: S) -> bool {
    let mut client = WebSocket::from_raw_socket(alloc, stream, NoMask, Role::Client, None);
    for wanted in &TAPPED {
        let tapped = match (tap_next(alloc, &mut client), wanted) {
            (Ok(Some(record)), Some(json)) => record.as_slice() == *json,
            (Ok(None), None) => true,
            _ => false,
        };
        if !tapped {
            return false;
        }
    }
    true
}

/// A stream that reads these bytes, and keeps what is written.
fn over(alloc: Global, bytes: &[u8]) -> Duplex<&[u8], Vec<u8>> {
    Duplex {
        reader: bytes,
        writer: Vec::new(alloc),
    }
}

#[test]
fn loopback_and_memory_are_tapped(rt: HostRuntime) -> Result<(), Fail> {
    let alloc = rt.alloc();
    let listener = TcpListener::bind(&rt, SocketAddr::from((Ipv4Addr::LOCALHOST, 0)))?;
    let near = TcpStream::connect(&rt, listener.local_addr()?)?;
    let (far, _) = listener.accept()?;
    let _far = sent_over(alloc, far)?;
    assert!(rt; is_tapped(alloc, near));
    let sent = sent_over(alloc, over(alloc, b""))?.writer;
    assert!(rt; is_tapped(alloc, over(alloc, &sent)));
    let silent = over(alloc, b"");
    let mut client = WebSocket::from_raw_socket(alloc, silent, NoMask, Role::Client, None);
    let tapped = tap_next(alloc, &mut client);
    assert!(rt; matches!(tapped, Err(WireFault::Socket)));
    Ok(())
}
