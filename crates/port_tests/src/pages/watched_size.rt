ghost use Rattle.std.specs.Prelude.{◌≡◌, ◌∷◌, [], OnOk};
ghost use Rattle.watch_core.specs.Watched.{added};

use ports_core::Fault;
use watch_core::Watch;

/// How many bytes the file of a name holds as the first look finds it; none where the name leads nowhere.
pub(crate) fn size_of<W: Watch>(name: &str, watch: &mut W) -> Result<Option<u64>, Fault>
    requires { W.watched watch.old ≡ [] }
    ensures { OnOk result (W.watched watch.new ≡ added name.now ∷ []) }
{
    let place = watch.add(name)?;
    watch.turn()?;
    match watch.look(place) {
        Ok(Some(file)) => Ok(Some(file.len)),
        Ok(None) => Ok(None),
        Err(fault) => Err(fault),
    }
}
