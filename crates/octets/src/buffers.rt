// Octets into a buffer, all of them or none.
ghost use Rattle.std.specs.Prelude.{◌≡◌, ◌≤◌, length};
ghost use Rattle.laws.specs.Buffers.{onto, wrote, put_at};

// Octets onto the front of a buffer that has room for them; how many they are.
pub fn copy(o: &[u8], buf: &mut [u8]) -> usize
    requires { length o.now ≤ length buf.old }
    ensures value { result ≡ length o.now }
    ensures after { buf.new ≡ onto o.now buf.old }
{
    buf[..o.len()].copy_from_slice(o);
    o.len()
}

// Octets behind the first `at` of a buffer; the place behind them, or `at` where they do not fit. No Option: parts
// are put one behind the other without a test, and the place stays where one does not fit.
#[tactic(auto, using(laws::proofs::Choice::choices), unfolding(laws::specs::Buffers::put_at))]
pub fn put(buf: &mut [u8], at: usize, o: &[u8]) -> usize
    ensures { wrote result buf.new ≡ put_at o.now at buf.old }
{
    if buf.len() < at {
        return at;
    }
    if buf.len() - at < o.len() {
        return at;
    }
    copy(o, &mut buf[at..]);
    at + o.len()
}
