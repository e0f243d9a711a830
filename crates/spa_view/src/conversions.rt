//! Conversions between the views. They equal `as_pod`, `as_struct` and `as_object`.
ghost use Rattle.std.specs.Prelude.{◌≡◌, IfErr, IfOk, OnOk};
ghost use Rattle.spa_view.specs.Tests as t;

use crate::fields::PodStruct;
use crate::pod::Pod;
use crate::props::PodObject;
use spa_utils::Errno;

impl<'a> From<PodStruct<'a>> for Pod<'a> {
    ghost use Rattle.spa_view.specs.View.{pod_bytes, struct_bytes};

    ghost from_gives = { λ members pod. pod_bytes pod ≡ struct_bytes members };

    fn from(members: PodStruct<'a>) -> Pod<'a> {
        members.as_pod()
    }
}

impl<'a> From<PodObject<'a>> for Pod<'a> {
    ghost use Rattle.spa_view.specs.View.{object_bytes, pod_bytes};

    ghost from_gives = { λ object pod. pod_bytes pod ≡ object_bytes object };

    fn from(object: PodObject<'a>) -> Pod<'a> {
        object.as_pod()
    }
}

impl<'a> AsRef<Pod<'a>> for PodStruct<'a> {
    ghost use Rattle.spa_view.specs.View.{pod_bytes, struct_bytes};

    fn as_ref(&self) -> &Pod<'a>
        ensures { pod_bytes result.now ≡ struct_bytes self.now }
    {
        &self.pod
    }
}

impl<'a> AsRef<Pod<'a>> for PodObject<'a> {
    ghost use Rattle.spa_view.specs.View.{object_bytes, pod_bytes};

    fn as_ref(&self) -> &Pod<'a>
        ensures { pod_bytes result.now ≡ object_bytes self.now }
    {
        &self.pod
    }
}

impl<'a> TryFrom<Pod<'a>> for PodStruct<'a> {
    ghost use Rattle.spa_utils.specs.declared.errno.TheConstants.Errno.{INVAL};
    ghost use Rattle.spa_view.specs.View.{pod_bytes, struct_bytes};

    type Error = Errno;

    ghost try_from_gives = { λ pod r. OnOk r (t.IsStructPod (pod_bytes pod))
        × IfOk r (λ members. struct_bytes members ≡ pod_bytes pod)
        × IfErr r (λ e. (¬ (t.IsStructPod (pod_bytes pod))) × (e ≡ INVAL)) };

    fn try_from(pod: Pod<'a>) -> Result<PodStruct<'a>, Errno> {
        pod.as_struct()
    }
}

impl<'a> TryFrom<Pod<'a>> for PodObject<'a> {
    ghost use Rattle.spa_utils.specs.declared.errno.TheConstants.Errno.{INVAL};
    ghost use Rattle.spa_view.specs.View.{object_bytes, pod_bytes};

    type Error = Errno;

    ghost try_from_gives = { λ pod r. OnOk r (t.IsObjectPod (pod_bytes pod))
        × IfOk r (λ object. object_bytes object ≡ pod_bytes pod)
        × IfErr r (λ e. (¬ (t.IsObjectPod (pod_bytes pod))) × (e ≡ INVAL)) };

    fn try_from(pod: Pod<'a>) -> Result<PodObject<'a>, Errno> {
        pod.as_object()
    }
}
