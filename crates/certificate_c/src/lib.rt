// The call for hosts in C, exported from a static library: it is the library's call, with the same promise.
#![tactic(auto)]

ghost use Rattle.certificate.specs.Host.{HostAnswer};

// The certificate of the trace file, written to the front of the buffer; the answers are those of the library's call.
#[unsafe(no_mangle)]
pub extern "C" fn wickerheron_certify(trace: &[u8], kind: u32, out: &mut [u8]) -> i64
    ensures { HostAnswer trace.now kind out.old out.new result }
{
    certificate::wickerheron_certify(trace, kind, out)
}
