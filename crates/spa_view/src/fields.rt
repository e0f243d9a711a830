//! Zero-copy views of structs, and of their members.
ghost use Rattle.std.specs.Prelude.{◌≡◌, ◌≤◌, ◌<◌, ◌*◌, length};
ghost use Rattle.spa_format.specs.Words.{body_of, header_size, size_limit, word_at};

use crate::pod::Pod;

/// A view of a struct.
#[derive(Clone, Copy, Debug)]
pub struct PodStruct<'a> {
    pub(crate) pod: Pod<'a>,
}

impl<'a> PodStruct<'a> {
    ghost use Rattle.spa_view.specs.View.{fields_left, pod_bytes, struct_bytes};
    ghost use Rattle.spa_format.specs.Pod.{IsPod};
    ghost use Rattle.spa_format.specs.Tree.{Trees, struct};
    ghost use Rattle.spa_format.specs.Walk.{ArePodsOf, walk};

    /// The struct's pod.
    pub fn as_pod(&self) -> Pod<'a>
        ensures { pod_bytes result ≡ struct_bytes self.now }
    {
        self.pod
    }

    /// An iterator over the members in order, up to the first that isn't a whole pod.
    pub fn fields(&self) -> PodStructIter<'a>
        ensures walk { fields_left result ≡ walk (body_of (struct_bytes self.now)) }
        ensures accepted { (vs : Trees) → IsPod (struct_bytes self.now) (struct vs) →
            ArePodsOf vs (fields_left result) }
        ensures few { length (fields_left result) * header_size ≤ word_at (struct_bytes self.now) 0 }
        ensures bound { length (fields_left result) < size_limit }
    {
        PodStructIter {
            left: self.pod.body(),
        }
    }
}

/// An iterator over the members of a struct. It ends for good at the first that isn't whole.
#[derive(Clone, Copy, Debug)]
pub struct PodStructIter<'a> {
    left: &'a [u8],
}

impl<'a> Iterator for PodStructIter<'a> {
    ghost use Rattle.std.specs.Iterator.{item_count, YieldsFirstBy};
    ghost use Rattle.spa_view.specs.View.{fields_left, pod_bytes};

    type Item = Pod<'a>;

    ghost next_gives = { YieldsFirstBy pod_bytes fields_left };

    ghost remaining = { item_count fields_left };

    fn next(&mut self) -> Option<Pod<'a>> {
        let pod = Pod::from_bytes(self.left)?;
        let (_, left) = self.left.split_at(pod.bytes.len());
        self.left = left;
        Some(pod)
    }
}
