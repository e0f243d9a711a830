//! A struct with a text and a struct in it.
ghost use Rattle.libspa.specs.Kind as kind;
ghost use Rattle.libspa.specs.Tree.{fixed, member, no_trees, string, struct};

use libspa::pod::deserialize::{DeserializeAs, StructOf};
use libspa::pod::serialize::{GenError, PodOutput, SerializeAs, write_struct};
use libspa::utils::Rectangle;

/// A picture's size, written as a struct of one member.
#[derive(Clone, Copy)]
pub struct Cover {
    pub size: Rectangle,
}

/// Read as a struct of this one, and refused exactly where no such struct is there.
impl DeserializeAs for Cover {
    type Content = StructOf<(Rectangle, ())>;

    ghost content = { λ cover. record { 0 = (cover.size, tt) } };

    fn of_content(StructOf((size, ())): Self::Content) -> Cover {
        Cover { size }
    }
}

impl SerializeAs for Cover {
    ghost says = { λ cover. struct (member (fixed (kind.rectangle cover.size.width cover.size.height)) no_trees) };

    fn write_as<O: PodOutput>(&self, out: &mut O) -> Result<(), GenError> {
        write_struct(out, &(&self.size, ()))
    }
}

/// A number, a title and a cover. Read, its title is a part of the input.
#[derive(Clone, Copy)]
pub struct Song<'a> {
    pub number: i32,
    pub title: &'a str,
    pub cover: Cover,
}

/// Read as a struct of these three, and refused exactly where no such struct is there.
impl<'a> DeserializeAs for Song<'a> {
    type Content = StructOf<(i32, (&'a str, (Cover, ())))>;

    ghost content = { λ song. record { 0 = (song.number, (song.title, (song.cover, tt))) } };

    fn of_content(StructOf((number, (title, (cover, ())))): Self::Content) -> Song<'a> {
        Song {
            number,
            title,
            cover,
        }
    }
}

impl SerializeAs for Song<'_> {
    ghost says = { λ song. struct
        (member (fixed (kind.int song.number))
        (member (string song.title.now)
        (member (⟦<Cover as SerializeAs>⟧.says song.cover) no_trees))) };

    fn write_as<O: PodOutput>(&self, out: &mut O) -> Result<(), GenError> {
        write_struct(out, &(&self.number, (&self.title, (&self.cover, ()))))
    }
}
