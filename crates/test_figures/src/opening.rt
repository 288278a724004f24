// The sizes that a pool may be opened with. `pool::open` tests the lengths of the lent slices, and nothing else of them, so the test is
// made on lengths here: 4,096 pages have 2^22 stamps, more than a program's stack holds.
ghost use Rattle.std.specs.Prelude.{◌≤◌};

use crate::print::{figure, pool_outcome};
use grid_stamps::PAGE_STAMPS;
use pool_open::lengths_fit;
use pool_records::{DOOMED_STRIDE, RETIRING_STRIDE, SPARE_STRIDE, TEXTURE_STRIDE};
use pool_rules::newest_length;

// Returns the outcome of opening with as many places as given, numbers for the grids, and stamps.
fn opening(textures: usize, versions: usize, newest: usize, stamps: usize) -> u64
    requires { (textures ≤ 4097) × (versions ≤ 4097) }
{
    let fit = lengths_fit(
        TEXTURE_STRIDE * textures,
        RETIRING_STRIDE * versions,
        DOOMED_STRIDE * versions,
        SPARE_STRIDE * versions,
        newest,
        stamps,
    );
    pool_outcome(fit)
}

// Prints it for a number of texture places.
fn print_textures(textures: usize)
    requires { textures ≤ 4097 }
{
    figure(
        b"open_textures",
        &[textures as u64, opening(textures, 1, 0, 0)],
    );
}

// Prints it for a number of version places.
fn print_versions(versions: usize)
    requires { versions ≤ 4097 }
{
    figure(
        b"open_versions",
        &[versions as u64, opening(1, versions, 0, 0)],
    );
}

// Prints it for a number of pages.
fn print_pages(pages: usize)
    requires { pages ≤ 4097 }
{
    let stamps = PAGE_STAMPS * pages;
    figure(
        b"open_pages",
        &[
            pages as u64,
            opening(1, 1, newest_length(1, stamps), stamps),
        ],
    );
}

// Prints it for one page of `stamps` stamps.
fn print_page(stamps: usize) {
    figure(
        b"open_page_of_stamps",
        &[
            stamps as u64,
            opening(1, 1, newest_length(1, stamps), stamps),
        ],
    );
}

// Prints it for a length of `newest`, with so many texture places and pages.
fn print_newest(textures: usize, pages: usize, newest: usize)
    requires { (textures ≤ 4096) × (pages ≤ 4096) }
{
    figure(
        b"open_newest",
        &[
            textures as u64,
            pages as u64,
            newest as u64,
            opening(textures, 1, newest, PAGE_STAMPS * pages),
        ],
    );
}

// Prints it on both sides of what is to be lent: 90 a texture place where there are as many stamps, else one a stamp.
fn print_newests() {
    print_newest(8, 6, 1439);
    print_newest(8, 6, 1440);
    print_newest(8, 6, 1441);
    print_newest(11, 1, 1980);
    print_newest(12, 1, 2047);
    print_newest(12, 1, 2048);
    print_newest(12, 1, 2049);
    print_newest(12, 1, 2160);
    print_newest(1, 0, 0);
    print_newest(1, 0, 1);
    print_newest(4096, 4096, 737280);
}

// Prints the outcomes on both sides of each limit.
pub fn print_sizes() {
    print_textures(0);
    print_textures(1);
    print_textures(4096);
    print_textures(4097);
    print_versions(0);
    print_versions(1);
    print_versions(4096);
    print_versions(4097);
    print_pages(0);
    print_pages(4096);
    print_pages(4097);
    print_page(1023);
    print_page(1024);
    print_page(1025);
    print_newests();
}
