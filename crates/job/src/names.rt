// Names of files beside the state file.
ghost use Rattle.std.specs.Prelude.{◌≡◌, ◌≤◌, length, IfSome};
ghost use Rattle.job.specs.Names.{Answer, aside, folder};

// The name under which a new state is written before it takes the place of the old one: `.new` behind the state file's. Answers its length; none, and nothing
// written, where `out` is too short.
pub fn aside(path: &[u8], out: &mut [u8]) -> Option<usize>
    ensures name { Answer.answer result out.new ≡ aside path.now out.old }
    ensures within { IfSome result (λ n. n ≤ length out.old) }
{
    if out.len() < 4 {
        return None;
    }
    if out.len() - 4 < path.len() {
        return None;
    }
    let n = octets::copy(path, out);
    let m = octets::copy(b".new", &mut out[n..]);
    Some(n + m)
}

// The length of the folder's part of a path, with its last `/`; 0 where there is none.
pub fn folder(path: &[u8]) -> usize
    ensures last { result ≡ folder path.now }
    ensures within { result ≤ length path.now }
{
    for i in (0..path.len()).rev() {
        if path[i] == b'/' {
            return i + 1;
        }
    }
    0
}
