//! Messages that are changed: changes with `; ` between them, as `method PUT; add X: 1`.
use crate::parts::{body_of, host_of, name_of, path_of, port_of, status_of, value_of, version_of};
use px_message::{Body, Fields, Request, Response};
use px_rows::RowError;
use std::alloc::Global;

/// Changes the request.
pub(crate) fn change_request(
    alloc: Global,
    request: &mut Request,
    changes: &str,
) -> Result<(), RowError> {
    for change in changes.split("; ") {
        let (what, text) = word_of(change);
        change_request_once(alloc, request, what, text)?;
    }
    Ok(())
}

// The first word and the rest.
fn word_of(change: &str) -> (&str, &str) {
    match change.split_once(' ') {
        Some(halves) => halves,
        None => (change, ""),
    }
}

fn change_request_once(
    alloc: Global,
    request: &mut Request,
    what: &str,
    text: &str,
) -> Result<(), RowError> {
    match what {
        "method" => set_method(alloc, request, text),
        "host" => set_host(alloc, request, text),
        "port" => set_port(request, text),
        "path" => set_path(alloc, request, text),
        "version" => set_version(request, text),
        _ => change_content(
            alloc,
            what,
            text,
            &mut request.fields,
            &mut request.body,
            &mut request.trailers,
            &mut request.streamed,
        ),
    }
}

fn set_method(alloc: Global, request: &mut Request, text: &str) -> Result<(), RowError> {
    match request.set_method(name_of(alloc, text)?) {
        Ok(()) => Ok(()),
        Err(_) => Err(RowError::Bad),
    }
}

fn set_host(alloc: Global, request: &mut Request, text: &str) -> Result<(), RowError> {
    request.host = host_of(alloc, text)?;
    Ok(())
}

fn set_port(request: &mut Request, text: &str) -> Result<(), RowError> {
    request.port = port_of(text)?;
    Ok(())
}

fn set_path(alloc: Global, request: &mut Request, text: &str) -> Result<(), RowError> {
    request.path = path_of(alloc, text)?;
    Ok(())
}

fn set_version(request: &mut Request, text: &str) -> Result<(), RowError> {
    request.version = version_of(text)?;
    Ok(())
}

/// The response, changed. No text changes nothing.
pub fn change_response(
    alloc: Global,
    response: Response,
    changes: &str,
) -> Result<Response, RowError> {
    let mut response = response;
    match change_each(alloc, &mut response, changes) {
        Ok(()) => Ok(response),
        Err(error) => {
            drop(response);
            Err(error)
        }
    }
}

fn change_each(alloc: Global, response: &mut Response, changes: &str) -> Result<(), RowError> {
    if changes.is_empty() {
        return Ok(());
    }
    for change in changes.split("; ") {
        let (what, text) = word_of(change);
        change_response_once(alloc, response, what, text)?;
    }
    Ok(())
}

fn change_response_once(
    alloc: Global,
    response: &mut Response,
    what: &str,
    text: &str,
) -> Result<(), RowError> {
    match what {
        "version" => {
            response.version = version_of(text)?;
            Ok(())
        }
        "status" => {
            response.status = status_of(text)?;
            Ok(())
        }
        "reason" => {
            response.reason = value_of(alloc, text)?;
            Ok(())
        }
        _ => change_content(
            alloc,
            what,
            text,
            &mut response.fields,
            &mut response.body,
            &mut response.trailers,
            &mut response.streamed,
        ),
    }
}

// Changes what requests and responses both have.
fn change_content(
    alloc: Global,
    what: &str,
    text: &str,
    fields: &mut Fields,
    body: &mut Body,
    trailers: &mut Fields,
    streamed: &mut bool,
) -> Result<(), RowError> {
    match what {
        "add" => add_field(alloc, fields, text),
        "remove" => {
            fields.remove(text.as_bytes())?;
            Ok(())
        }
        "trailer" => add_field(alloc, trailers, text),
        "body" => {
            *body = body_of(alloc, text)?;
            Ok(())
        }
        "streamed" => {
            *streamed = true;
            Ok(())
        }
        _ => Err(RowError::Bad),
    }
}

// Adds a field, as `Name: value`.
fn add_field(alloc: Global, fields: &mut Fields, text: &str) -> Result<(), RowError> {
    let Some((name, value)) = text.split_once(": ") else {
        return Err(RowError::Bad);
    };
    fields.add(name_of(alloc, name)?, value_of(alloc, value)?)?;
    Ok(())
}
