ghost use Rattle.std.specs.Prelude.{◌≡◌, ◌++◌, string_bytes, OnOk, flat_map};
ghost use Rattle.tables.specs.Shown.{numbers, object_of, objects_of};
ghost use Rattle.lines.specs.Lists.{listing};
ghost use Rattle.store.specs.Stores.{house_in};
ghost use Rattle.console.specs.Showing.{field_text, object_text, root_text, line_text, tables_text};

use lines::Line;
use std::alloc::AllocError;
use std::fmt::Write;
use store::Store;
use tables::Object;
use wire::{House, Name};

fn write_fields(fields: &[Name], out: &mut String) -> Result<(), AllocError>
    ensures { OnOk result (string_bytes out.new ≡ string_bytes out.old ++ flat_map field_text (numbers fields.now)) }
{
    for field in fields {
        write!(out, " {field}")?;
    }
    Ok(())
}

fn write_object(object: &Object, out: &mut String) -> Result<(), AllocError>
    ensures { OnOk result (string_bytes out.new ≡ string_bytes out.old ++ object_text (object_of object.now)) }
{
    let name = object.name();
    write!(out, "object {name}")?;
    write_fields(object.fields(), out)?;
    out.push('\n')
}

fn write_objects(objects: &[Object], out: &mut String) -> Result<(), AllocError>
    ensures { OnOk result (string_bytes out.new ≡ string_bytes out.old ++ flat_map object_text (objects_of objects.now)) }
{
    for object in objects {
        write_object(object, out)?;
    }
    Ok(())
}

fn write_roots(roots: &[Name], out: &mut String) -> Result<(), AllocError>
    ensures { OnOk result (string_bytes out.new ≡ string_bytes out.old ++ flat_map root_text (numbers roots.now)) }
{
    for root in roots {
        writeln!(out, "root {root}")?;
    }
    Ok(())
}

fn write_line(line: Line, out: &mut String) -> Result<(), AllocError>
    ensures { OnOk result (string_bytes out.new ≡ string_bytes out.old ++ line_text (listing line)) }
{
    let Line {
        object,
        holder,
        stamp,
        census,
    } = line;
    writeln!(out, "line {object} {holder} {stamp} {census}")
}

fn write_lines(store: &Store, out: &mut String) -> Result<(), AllocError>
    ensures { OnOk result (string_bytes out.new ≡ string_bytes out.old ++ flat_map line_text (house_in store.now).list) }
{
    for i in 0..store.line_count() {
        if let Some(line) = store.line(i) {
            write_line(line, out)?;
        }
    }
    Ok(())
}

/// Prints the tables of a house, line by line.
pub fn write_tables(house: House, store: &Store, out: &mut String) -> Result<(), AllocError>
    ensures { OnOk result (string_bytes out.new ≡ string_bytes out.old ++ tables_text house.0 (house_in store.now)) }
{
    let census = store.census();
    writeln!(out, "house {house} census {census}")?;
    write_objects(store.objects(), out)?;
    write_roots(store.roots(), out)?;
    write_lines(store, out)
}
