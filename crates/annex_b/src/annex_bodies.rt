// Bodies of Facility elements as 7.1 defines them, for each kind that Annex B shows, and damaged ones.
mod show;

use crate::annex_bodies::show::{read_bodies, write_components};
use crate::annex_case::Sheet;
use facility::{Component, Refusal, Wish};
use memory::Bar;
use rights::Service;

// B.1: a request, for each service, preferred and required.
fn requests(sheet: &mut Sheet) {
    read_bodies(
        sheet,
        &[
            (
                b"B.1 service 1 preferred",
                b"\x91\xA1\x0E\x02\x01\x05\x02\x01\x01\x30\x06\x81\x01\x01\x82\x01\xFF",
                b"5.1.p",
            ),
            (
                b"B.1 service 1 required",
                b"\x91\xA1\x0E\x02\x01\x05\x02\x01\x01\x30\x06\x81\x01\x01\x82\x01\x00",
                b"5.1.r",
            ),
            (
                b"B.1 service 2 preferred",
                b"\x91\xA1\x0E\x02\x01\x00\x02\x01\x01\x30\x06\x81\x01\x02\x82\x01\xFF",
                b"0.2.p",
            ),
            (
                b"B.1 service 2 required",
                b"\x91\xA1\x0E\x02\x01\x00\x02\x01\x01\x30\x06\x81\x01\x02\x82\x01\x00",
                b"0.2.r",
            ),
            (
                b"B.1 service 3 preferred",
                b"\x91\xA1\x0E\x02\x01\x7F\x02\x01\x01\x30\x06\x81\x01\x03\x82\x01\xFF",
                b"127.3.p",
            ),
            (
                b"B.1 service 3 required",
                b"\x91\xA1\x0E\x02\x01\x7F\x02\x01\x01\x30\x06\x81\x01\x03\x82\x01\x00",
                b"127.3.r",
            ),
        ],
    );
}

// TRUE is any octet but 00. B.2 and B.3: a return result, and a return error with each error.
fn answers(sheet: &mut Sheet) {
    read_bodies(
        sheet,
        &[
            (
                b"B.1 TRUE as 01",
                b"\x91\xA1\x0E\x02\x01\x05\x02\x01\x01\x30\x06\x81\x01\x01\x82\x01\x01",
                b"5.1.p",
            ),
            (
                b"B.1 TRUE as 80",
                b"\x91\xA1\x0E\x02\x01\x05\x02\x01\x01\x30\x06\x81\x01\x01\x82\x01\x80",
                b"5.1.p",
            ),
            (b"B.2 return result", b"\x91\xA2\x03\x02\x01\x05", b"5.ok"),
            (
                b"B.3 rejectedByNetwork",
                b"\x91\xA3\x06\x02\x01\x05\x02\x01\x01",
                b"5.network",
            ),
            (
                b"B.3 rejectedByUser",
                b"\x91\xA3\x06\x02\x01\x05\x02\x01\x02",
                b"5.user",
            ),
        ],
    );
}

// Bodies that end too soon.
fn cut_short(sheet: &mut Sheet) {
    read_bodies(
        sheet,
        &[
            (b"empty body", b"", b"-"),
            (
                b"request cut short",
                b"\x91\xA1\x0E\x02\x01\x05\x02\x01\x01\x30\x06\x81\x01\x01\x82\x01",
                b"-",
            ),
            (b"result cut short", b"\x91\xA2\x03\x02\x01", b"-"),
            (
                b"error cut short",
                b"\x91\xA3\x06\x02\x01\x05\x02\x01",
                b"-",
            ),
        ],
    );
}

// Octets about a component that are not those of one.
fn damaged(sheet: &mut Sheet) {
    read_bodies(
        sheet,
        &[
            (b"profile 92", b"\x92\xA2\x03\x02\x01\x05", b"-"),
            (b"length one less", b"\x91\xA2\x02\x02\x01\x05", b"-"),
            (b"an octet more", b"\x91\xA2\x03\x02\x01\x05\x00", b"-"),
        ],
    );
}

// Components that are none of those: reject, two of them, a length without an end, an invoke number too great.
fn others(sheet: &mut Sheet) {
    read_bodies(
        sheet,
        &[
            (b"reject A4", b"\x91\xA4\x06\x02\x01\x05\x80\x01\x00", b"-"),
            (
                b"two components",
                b"\x91\xA2\x03\x02\x01\x05\xA2\x03\x02\x01\x06",
                b"-",
            ),
            (
                b"indefinite length",
                b"\x91\xA2\x80\x02\x01\x05\x00\x00",
                b"-",
            ),
            (b"invoke number 128", b"\x91\xA2\x03\x02\x01\x80", b"-"),
        ],
    );
}

// Values that name nothing.
fn unknown(sheet: &mut Sheet) {
    read_bodies(
        sheet,
        &[
            (
                b"service 0",
                b"\x91\xA1\x0E\x02\x01\x05\x02\x01\x01\x30\x06\x81\x01\x00\x82\x01\xFF",
                b"-",
            ),
            (
                b"service 4",
                b"\x91\xA1\x0E\x02\x01\x05\x02\x01\x01\x30\x06\x81\x01\x04\x82\x01\xFF",
                b"-",
            ),
            (
                b"operation 2",
                b"\x91\xA1\x0E\x02\x01\x05\x02\x01\x02\x30\x06\x81\x01\x01\x82\x01\xFF",
                b"-",
            ),
            (b"error 0", b"\x91\xA3\x06\x02\x01\x05\x02\x01\x00", b"-"),
            (b"error 3", b"\x91\xA3\x06\x02\x01\x05\x02\x01\x03", b"-"),
        ],
    );
}

// The same requests, written.
fn requests_written(sheet: &mut Sheet) {
    write_components(
        sheet,
        &[
            (
                b"write 1 preferred",
                Component::Invoke(5, Service::One, Wish::Preferred),
                Ok(b"\x1C\x11\x91\xA1\x0E\x02\x01\x05\x02\x01\x01\x30\x06\x81\x01\x01\x82\x01\xFF"),
            ),
            (
                b"write 1 required",
                Component::Invoke(5, Service::One, Wish::Required),
                Ok(b"\x1C\x11\x91\xA1\x0E\x02\x01\x05\x02\x01\x01\x30\x06\x81\x01\x01\x82\x01\x00"),
            ),
            (
                b"write 2 preferred",
                Component::Invoke(0, Service::Two, Wish::Preferred),
                Ok(b"\x1C\x11\x91\xA1\x0E\x02\x01\x00\x02\x01\x01\x30\x06\x81\x01\x02\x82\x01\xFF"),
            ),
            (
                b"write 2 required",
                Component::Invoke(0, Service::Two, Wish::Required),
                Ok(b"\x1C\x11\x91\xA1\x0E\x02\x01\x00\x02\x01\x01\x30\x06\x81\x01\x02\x82\x01\x00"),
            ),
            (
                b"write 3 preferred",
                Component::Invoke(127, Service::Three, Wish::Preferred),
                Ok(b"\x1C\x11\x91\xA1\x0E\x02\x01\x7F\x02\x01\x01\x30\x06\x81\x01\x03\x82\x01\xFF"),
            ),
            (
                b"write 3 required",
                Component::Invoke(127, Service::Three, Wish::Required),
                Ok(b"\x1C\x11\x91\xA1\x0E\x02\x01\x7F\x02\x01\x01\x30\x06\x81\x01\x03\x82\x01\x00"),
            ),
        ],
    );
}

// The same answers, written, and one that is refused.
fn answers_written(sheet: &mut Sheet) {
    write_components(
        sheet,
        &[
            (
                b"write return result",
                Component::Accepted(5),
                Ok(b"\x1C\x06\x91\xA2\x03\x02\x01\x05"),
            ),
            (
                b"write rejectedByNetwork",
                Component::Rejected(5, Refusal::ByNetwork),
                Ok(b"\x1C\x09\x91\xA3\x06\x02\x01\x05\x02\x01\x01"),
            ),
            (
                b"write rejectedByUser",
                Component::Rejected(5, Refusal::ByUser),
                Ok(b"\x1C\x09\x91\xA3\x06\x02\x01\x05\x02\x01\x02"),
            ),
            (
                b"write invoke number 128",
                Component::Accepted(128),
                Err(Bar::Range),
            ),
        ],
    );
}

pub(crate) fn show_all(sheet: &mut Sheet) {
    requests(sheet);
    answers(sheet);
    cut_short(sheet);
    damaged(sheet);
    others(sheet);
    unknown(sheet);
    requests_written(sheet);
    answers_written(sheet);
}
