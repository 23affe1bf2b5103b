//! The source, the folder and the sink of a run, each as it is, and somebody who is told of its calls.
ghost use Rattle.std.specs.Prelude.{◌≡◌};

use crate::watch::Watch;
use outer_io::{Failed, FileName, Folder, Pages, Sink, Source, WriteFault};

/// An object and who is told of its calls, if there is somebody. To a caller it is the object: it has its bytes, its
/// files and its faults.
#[derive(Drop)]
pub(crate) struct Watched<'w, 'a, T> {
    inner: T,
    watch: Option<&'w Watch<'a>>,
    /// Something of the piece that is written is left.
    is_within: bool,
}

impl<'w, 'a, T> Watched<'w, 'a, T> {
    pub(crate) fn new(inner: T, watch: Option<&'w Watch<'a>>) -> Watched<'w, 'a, T>
        ensures { result.inner ≡ inner }
    {
        Watched {
            inner,
            watch,
            is_within: false,
        }
    }

    pub(crate) fn into_inner(self) -> T
        ensures { result ≡ self.entry.inner }
    {
        self.inner
    }
}

impl<S: Source> Source for Watched<'_, '_, S> {
    ghost told = { S.told };

    ghost left = { λ w. S.left w.inner };

    ghost faults = { λ w. S.faults w.inner };

    fn read(&mut self, buf: &mut [u8]) -> Result<usize, Failed> {
        let count = self.inner.read(buf)?;
        if let Some(watch) = self.watch {
            watch.took(&buf[..count]);
        }
        Ok(count)
    }
}

impl<K: Sink> Sink for Watched<'_, '_, K> {
    ghost told = { K.told };

    ghost written = { λ w. K.written w.inner };

    ghost faults = { λ w. K.faults w.inner };

    fn write(&mut self, b: &[u8]) -> Result<usize, Failed> {
        if let Some(watch) = self.watch
            && !self.is_within
        {
            watch.answers(b);
        }
        let count = self.inner.write(b)?;
        self.is_within = count < b.len();
        Ok(count)
    }
}

impl<F: Folder> Pages for Watched<'_, '_, F> {
    ghost told = { F.Pages.told };

    ghost files = { λ w. F.Pages.files w.inner };

    ghost faults = { λ w. F.Pages.faults w.inner };

    ghost reads = { λ w. F.Pages.reads w.inner };

    fn size(&mut self, n: &FileName) -> Result<Option<u64>, Failed> {
        self.inner.size(n)
    }

    fn read_at(&mut self, n: &FileName, at: u64, buf: &mut [u8]) -> Result<usize, Failed> {
        let count = self.inner.read_at(n, at, buf)?;
        if let Some(watch) = self.watch {
            watch.read(n, at, &buf[..count]);
        }
        Ok(count)
    }
}

impl<F: Folder> Folder for Watched<'_, '_, F> {
    fn write_file(&mut self, n: &FileName, b: &[u8]) -> Result<(), WriteFault> {
        self.inner.write_file(n, b)?;
        if let Some(watch) = self.watch {
            watch.wrote(b.len());
        }
        Ok(())
    }

    fn append(&mut self, n: &FileName, b: &[u8]) -> Result<(), WriteFault> {
        self.inner.append(n, b)?;
        if let Some(watch) = self.watch {
            watch.wrote(b.len());
        }
        Ok(())
    }

    fn rename(&mut self, from: &FileName, to: &FileName) -> Result<(), Failed> {
        self.inner.rename(from, to)
    }

    fn remove(&mut self, n: &FileName) -> Result<(), Failed> {
        self.inner.remove(n)
    }
}
