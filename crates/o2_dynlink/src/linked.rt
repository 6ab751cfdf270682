// What linking gives.
ghost use Rattle.std.specs.Prelude.{◌≡◌, ◌≤◌, length, map, IfSome};
ghost use Rattle.o2_image.specs.Getters.{nth, nth_list};
ghost use Rattle.o2_image.specs.ImageList.{Exists};
ghost use Rattle.o2_dynlink.specs.Outcome.{IsConsistent, modules_of};
ghost use Rattle.o2_dynlink.specs.Selectors.{bases_of, index_of};

use crate::selectors::base_at;
use o2_image::Images;
use std::marker::Model;

/// The modules of a run with the targets of their records, and what each process gets of them. Places of modules and
/// processes count from 1, in the order of the machine file.
#[derive(Drop)]
pub struct Linked {
    images: Images,
    bases: Vec<u16>,
    programs: Vec<u16>,
    libraries: Vec<Vec<u16>>,
}

impl Model for Linked {
    ghost use Rattle.std.specs.Prelude.{◌≡◌, map};
    ghost use Rattle.o2_dynlink.specs.Outcome.{IsConsistent, LinkedParts, modules_of};
    ghost use Rattle.o2_dynlink.specs.Selectors.{bases_of};

    ghost Value = { LinkedParts };

    ghost view = { λ l. record { images = l.images; programs = l.programs.items; libraries = map (λ v. v.items) l.libraries.items } };

    ghost invariant = { λ l. IsConsistent (record { images = l.images; programs = l.programs.items; libraries = map (λ v. v.items) l.libraries.items }) × (l.bases.items ≡ bases_of (modules_of l.images)) };
}

impl Linked {
    // The outcome of linking.
    pub(crate) fn new(
        images: Images,
        bases: Vec<u16>,
        programs: Vec<u16>,
        libraries: Vec<Vec<u16>>,
    ) -> Linked
        requires consistent { IsConsistent (record { images = images; programs = programs.items; libraries = map (λ v. v.items) libraries.items }) }
        requires bases { bases.items ≡ bases_of (modules_of images) }
        ensures { result ≡ record { images = images; programs = programs.items; libraries = map (λ v. v.items) libraries.items } }
    {
        Linked {
            images,
            bases,
            programs,
            libraries,
        }
    }

    /// The images of the run, and what holds of each outcome.
    pub fn images(&self) -> &Images
        ensures value { result.now ≡ self.now.images }
        ensures consistent { IsConsistent self.now }
    {
        &self.images
    }

    /// The images of the run, given up. It takes no memory.
    pub fn into_images(self) -> Images
        ensures value { result ≡ self.images }
        ensures consistent { IsConsistent self }
    {
        let Linked { images, .. } = self;
        images
    }

    /// How many processes there are; each has an environment, a program, and a list of libraries.
    pub fn process_count(&self) -> usize
        ensures programs { result ≡ length self.now.programs }
        ensures libraries { result ≡ length self.now.libraries }
        ensures environments { result ≡ length self.now.images.environments }
    {
        self.programs.len()
    }

    /// The place of a process's program. None exactly where there is no such process.
    pub fn program(&self, pid: u16) -> Option<u16>
        ensures value { result ≡ nth self.now.programs pid }
        ensures exists { IfSome result (Exists self.now.images.modules) }
    {
        if pid == 0 {
            return None;
        }
        self.programs.get(usize::from(pid) - 1).copied()
    }

    /// The places of all libraries that the references of a process's program reach, directly or through libraries, each
    /// once, by rising place.
    pub fn libraries(&self, pid: u16) -> &[u16]
        requires { Exists self.now.libraries pid }
        ensures { result.now ≡ nth_list self.now.libraries pid }
    {
        self.libraries[usize::from(pid) - 1].as_slice()
    }

    /// The index in the local descriptor table, 1 to 8191, of a segment of the module at a place. None exactly where there is
    /// no such segment.
    pub fn index(&self, module: u16, seg: u16) -> Option<u16>
        ensures value { result ≡ index_of (modules_of self.now.images) «module» seg }
        ensures within { IfSome result (λ i. i ≤ 8191) }
    {
        let Some(found) = self.images.module(module) else {
            return None;
        };
        if seg < 1 || seg > found.segment_count() {
            return None;
        }
        Some(base_at(self.bases.as_slice(), module) + seg)
    }
}
