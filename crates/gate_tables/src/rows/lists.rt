// Lists that are in fields, between spaces.
use std::alloc::{AllocError, Global};

/// In ten-thousandths of an ångström, or any other unit.
pub type Point = (i64, i64, i64);

/// The narrow end, the other end, and how the bond is drawn.
pub type Line = (u32, u32, u8);

/// Numbers such as `1 2 3`.
pub fn numbers(alloc: Global, text: &str) -> Result<Vec<u32>, AllocError> {
    let mut numbers = Vec::new(alloc);
    for word in text.split_whitespace() {
        numbers.push(word.parse().unwrap_or(0))?;
    }
    Ok(numbers)
}

/// Points such as `0,0,0 10000,0,0`.
pub fn points(alloc: Global, text: &str) -> Result<Vec<Point>, AllocError> {
    let mut points = Vec::new(alloc);
    for word in text.split_whitespace() {
        points.push(point(word))?;
    }
    Ok(points)
}

fn point(word: &str) -> Point {
    let (x, rest) = word.split_once(',').unwrap_or(("", ""));
    let (y, z) = rest.split_once(',').unwrap_or(("", ""));
    (
        x.parse().unwrap_or(0),
        y.parse().unwrap_or(0),
        z.parse().unwrap_or(0),
    )
}

/// Bonds such as `0^1 2-0`.
pub fn lines(alloc: Global, text: &str) -> Result<Vec<Line>, AllocError> {
    let mut lines = Vec::new(alloc);
    for word in text.split_whitespace() {
        lines.push(line(word))?;
    }
    Ok(lines)
}

fn line(word: &str) -> Line {
    for mark in ['-', '^', 'v', '~', '=', 'x'] {
        if let Some((a, b)) = word.split_once(mark) {
            return (a.parse().unwrap_or(0), b.parse().unwrap_or(0), mark as u8);
        }
    }
    (0, 0, b'-')
}
