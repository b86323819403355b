//! Which files are logs.
use qa_logs::is_log;
use std::alloc::Global;

fn is(alloc: Global, beginning: &[u8], answer: bool) -> bool {
    is_log(alloc, beginning) == Ok(answer)
}

/// A JSON text sequence, a text a line, one object on one line and on several, and a netlog.
#[test]
fn logs(rt: HostRuntime) {
    let alloc = rt.alloc();
    assert!(rt; is(alloc, b"\x1E{}\n", true));
    assert!(rt; is(alloc, b"{\"qlog_format\":\"NDJSON\",\"trace\":{}}\n", true));
    assert!(rt; is(alloc, b"{\"traces\":[]}", true));
    assert!(rt; is(alloc, b"{\n  \"qlog_version\": \"0.3\",\n", true));
    assert!(rt; is(alloc, b"{\"file_schema\":\"urn\",\"traces\":[{", true));
    assert!(rt; is(alloc, b"{\"constants\":{", true));
}

/// A trace, whatever keys its header has; what is neither; and what has to be unpacked first.
#[test]
fn no_logs(rt: HostRuntime) {
    let alloc = rt.alloc();
    assert!(rt;
        is(
            alloc,
            b"{\"event\":\"header\",\"traces\":1,\"qlog_version\":1}\n",
            false
        )
    );
    assert!(rt; is(alloc, b"{\"event\":\"sent\"}\n", false));
    assert!(rt; is(alloc, b"{\n", false));
    assert!(rt; is(alloc, b"", false));
    assert!(rt; is(alloc, b"\x1F\x8B\"qlog_version\"", false));
}
