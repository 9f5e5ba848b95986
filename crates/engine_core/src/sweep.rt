ghost use Rattle.std.specs.Prelude.{◌≤◌, length, take};
ghost use Rattle.engine_core.specs.Swept.{AreThere, Removes};

use ports_core::Outs;

/// Removes the files of these outputs, in order. A file that can't be removed is broken and closed, and the next is
/// tried. The outputs of the files that couldn't be removed are moved to the front. Returns how many they are.
pub fn sweep_files<O: Outs>(files: &mut [usize], outs: &mut O) -> usize
    requires { AreThere files.old (O.slots outs.old) }
    ensures within { result ≤ length files.old }
    ensures removes { Removes files.old (O.slots outs.old) (take result files.new) (O.slots outs.new) }
{
    let mut left = 0;
    for place in 0..files.len() {
        let file = files[place];
        if outs.remove(file).is_ok() {
            continue;
        }
        files[left] = file;
        left += 1;
    }
    left
}
